// The image memory, lent as bytes: the store of a pixel, of a pixel that may lie outside the field, the read and the clear.
#![tactic(auto)]

ghost use Rattle.std.specs.Prelude.{◌≡◌, [], ◌∷◌, ◌<◌, ◌/◌, ◌%◌};
ghost use Rattle.definition.specs.Image.{square, ink_shape, ink_pen, digit, put_digit, digit_at, store, left};
ghost use Rattle.image.specs.Drawn.{drawn, cleared};
ghost use Rattle.image.specs.Ink.{kept, inked};

use definition::{Ink, Pixel};

pub const WIDTH: usize = 512;

pub const HEIGHT: usize = 512;

pub const BYTES: usize = 65536;

// An ink whose value has a digit in its image.
#[derive(Clone, Copy)]
pub struct Brush {
    pub ink: Ink,
    pub ghost fits: { ink.value < (ink_shape ink).base },
}

// Digit k of a byte in base four: two bits, from bit 2k up.
#[tactic(auto, using(crate::proofs::DigitLaws::shifted_digit))]
fn digit(byte: u8, k: usize) -> u8
    requires { k < 4 }
    ensures { result ≡ digit 4 k byte }
{
    let bit = 2 * k;
    (byte >> bit) % 4
}

// The byte with v in place of its digit k.
#[tactic(auto, using(crate::proofs::DigitLaws::put))]
fn put_digit(byte: u8, k: usize, v: u8) -> u8
    requires { (k < 4) × (v < 4) }
    ensures { result ≡ put_digit 4 k byte v }
{
    let bit = 2 * k;
    let others: u8 = 255 - (3 << bit);
    byte & others | v << bit
}

// That x and y are in the field is asked for, here and of a row, and is in no type: they are numbers of loops, and `plot` asks for any pixel.
#[tactic(auto, unfolding(definition::specs::Image::digit_at, definition::specs::Image::byte_of))]
pub fn read(image: &[u8; BYTES], x: usize, y: usize) -> u8
    requires { (x < 512) × (y < 512) }
    ensures { result ≡ digit_at square image.now x y }
{
    digit(image[128 * y + x / 4], x % 4)
}

#[tactic(auto, using(crate::proofs::StoredLaws::stored))]
pub fn store(image: &mut [u8; BYTES], x: usize, y: usize, brush: Brush)
    requires { (x < (ink_shape brush.ink).width) × (y < (ink_shape brush.ink).height) }
    ensures { image.new ≡ store (ink_shape brush.ink) (ink_pen brush.ink) image.old x y }
{
    let i = 128 * y + x / 4;
    image[i] = put_digit(image[i], x % 4, brush.ink.value);
}

// The two tables of an ink, and not one of pairs, as the clauses are of each: an entry for each place of a digit in its byte: the bits that a store keeps of the byte, and those that it sets.
#[tactic(auto, unfolding(crate::specs::Ink::kept))]
pub fn kept(ink: Ink) -> [u8; 4]
    ensures { result ≡ kept ink }
{
    [252, 243, 207, 63]
}

#[tactic(auto, unfolding(crate::specs::Ink::inked))]
pub fn inked(brush: Brush) -> [u8; 4]
    ensures { result ≡ inked brush.ink }
{
    let v = brush.ink.value;
    [v, 4 * v, 16 * v, 64 * v]
}

// The store by the pixel's number and the ink's tables: the pixels are numbered row after row, from the lowest.
pub fn store_at(image: &mut [u8; BYTES], at: usize, keep: &[u8; 4], set: &[u8; 4], brush: Brush)
    requires { (at < 262144) × (keep.now ≡ kept brush.ink) × (set.now ≡ inked brush.ink) }
    ensures { image.new ≡ store (ink_shape brush.ink) (ink_pen brush.ink) image.old (at % 512) (at / 512) }
{
    let i = at / 4;
    let k = at % 4;
    image[i] = image[i] & keep[k] | set[k];
}

// One pixel, stored if it is in the field: answers how many were stored, 0 or 1.
pub fn plot(image: &mut [u8; BYTES], p: Pixel, brush: Brush) -> u32
    ensures { left result image.new ≡ drawn (ink_shape brush.ink) (ink_pen brush.ink) image.old (p ∷ []) }
{
    let Some(x) = units::index_in(WIDTH, p.x) else {
        return 0;
    };
    let Some(y) = units::index_in(HEIGHT, p.y) else {
        return 0;
    };
    store(image, x, y, brush);
    1
}

#[tactic(auto, unfolding(crate::specs::Drawn::cleared))]
pub fn clear(image: &mut [u8])
    ensures { image.new ≡ cleared image.old }
{
    image.fill(0);
}
