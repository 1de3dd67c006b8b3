// Units and pixels: the halving, a move by its sign and size, the move with its range, and the way from a pixel to an index.
#![tactic(auto)]

ghost use Rattle.std.specs.Prelude.{◌≡◌, true};
ghost use Rattle.definition.specs.Units.{units, pixels_of, moved};
ghost use Rattle.definition.specs.Image.{square, pixel_at};
ghost use Rattle.definition.specs.Words.{move};
ghost use Rattle.definition.specs.Machine.{in_range};
ghost use Rattle.units.specs.Answers.{moved_to, index_in};

use definition::{Pixel, Pixels, Units};

const LOWEST: i64 = -4096;

const HIGHEST: i64 = 4095;

// No other function makes pixels of units.
pub fn pixels_of(u: Units) -> Pixels
    ensures { result ≡ pixels_of 2 u }
{
    Pixels(u.0 >> 1)
}

pub fn pixel_at(x: Units, y: Units) -> Pixel
    ensures { result ≡ pixel_at square x y }
{
    Pixel {
        x: pixels_of(x),
        y: pixels_of(y),
    }
}

pub fn move_of(minus: bool, size: u16) -> Units
    ensures { result ≡ move minus size }
{
    let n = i32::from(size);
    Units(if minus { -n } else { n })
}

// Whether a count of units is in range. No `contains`: tried, and its proof did not close.
fn within(n: i64) -> bool
    ensures { result ≡ in_range (units n) }
{
    LOWEST <= n && n <= HIGHEST
}

pub fn in_range(u: Units) -> bool
    ensures { result ≡ in_range u }
{
    within(i64::from(u.0))
}

// Where a move leads, if it stays within the range.
#[tactic(auto, unfolding(crate::specs::Answers::moved_to))]
pub fn moved_to(u: Units, by: Units) -> Option<Units>
    ensures { result ≡ moved_to u by }
{
    if may_move(u, by) {
        Some(moved_by(u, by))
    } else {
        None
    }
}

// Whether a move stays within the range. The sum is taken in 64 bits, where it fits whatever the two are.
pub fn may_move(u: Units, by: Units) -> bool
    ensures { result ≡ in_range (moved u by) }
{
    within(i64::from(u.0) + i64::from(by.0))
}

// Where a move leads that stays within the range.
pub fn moved_by(u: Units, by: Units) -> Units
    requires { in_range (moved u by) ≡ true }
    ensures { result ≡ moved u by }
{
    Units(u.0 + by.0)
}

// A pixel's coordinate as an index of the field, if it has one: the one place where a signed number becomes an index.
pub fn index_in(limit: usize, p: Pixels) -> Option<usize>
    ensures { result ≡ index_in limit p }
{
    match usize::try_from(p.0) {
        Ok(i) if i < limit => Some(i),
        _ => None,
    }
}
