// The screen of a display file: the image that its bytes draw, and the picture file of an image.
#![tactic(auto)]

ghost use Rattle.std.specs.Prelude.{◌≡◌, ◌++◌, ◌+◌, ◌-◌, ◌*◌, ◌≤◌, ◌<◌, length, take};
ghost use Rattle.definition.specs.Image.{left};
ghost use Rattle.screen.specs.Screen.{drawing, row, rows, pgm};

use definition::Refusal;

// The bytes of a picture, of its header and of one of its rows.
pub const PICTURE: usize = 262157;

const HEADER: usize = 13;

const ROW: usize = 512;

// Clears the image, lets a fresh machine draw the file into it with that budget and that set of characters, and answers 19 or as the run does:
// the number of a refusal or the last status. It begins as `line::line_of` does, which draws into no image of its caller: one function would take what the
// other has not.
pub fn draw(bytes: &[u8], image: &mut [u8; 65536], budget: u32, set: &[u8]) -> u8
    ensures { left result image.new ≡ drawing bytes.now budget set.now }
{
    image::clear(image);
    if bytes.len() % 2 != 0 {
        return u8::from(Refusal::BadInput);
    }
    if 65536 < bytes.len() {
        return u8::from(Refusal::BadInput);
    }
    let mut words = [0u16; 32768];
    let n = line::words_of(bytes, &mut words);
    let ran = display::run(&words[..n], display::fresh(), image, budget, set);
    ran.answer
}

// The digits of row y of the image.
fn put_row(digits: &mut [u8], image: &[u8; 65536], y: usize)
    requires { (y < 512) × (length digits.old ≡ 512) }
    ensures { digits.new ≡ row image.now y 512 }
{
    for (x, digit) in digits.iter_mut().enumerate() {
        *digit = image::read(image, x, y);
    }
}

// Where row y begins in a picture, which has the top row first.
fn place_of(y: usize) -> usize
    requires { y < 512 }
    ensures { result ≡ 13 + 512 * (511 - y) }
{
    HEADER + ROW * (511 - y)
}

fn put_rows(picture: &mut [u8], image: &[u8; 65536])
    requires { length picture.old ≡ 262157 }
    ensures { picture.new ≡ take 13 picture.old ++ rows image.now 512 }
{
    for y in (0..image::HEIGHT).rev() {
        let at = place_of(y);
        put_row(&mut picture[at..at + ROW], image, y);
    }
}

// Each byte after the header is the digit of a pixel.
pub fn picture_of(image: &[u8; 65536], picture: &mut [u8; PICTURE])
    ensures { picture.new ≡ pgm image.now }
{
    picture[..HEADER].copy_from_slice(b"P5\n512 512\n3\n");
    put_rows(picture, image);
}
