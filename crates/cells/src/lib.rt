// Characters: the built-in set, the part of a set that is a code's cell, and a cell drawn into the image.
#![tactic(auto)]

mod set;

ghost use Rattle.std.specs.Prelude.{◌≡◌, [], ◌∷◌, true, false, ◌+◌, ◌<◌, pos, ◌+ℤ◌, length};
ghost use Rattle.definition.specs.Units.{pixels, pixel};
ghost use Rattle.definition.specs.Image.{ink_shape, ink_pen, left, below};
ghost use Rattle.definition.specs.Words.{is_code};
ghost use Rattle.definition.specs.Characters.{cell_of, is_set, row_pixels, cell_pixels};
ghost use Rattle.definition.specs.declared.Pixel.{Pixel};
ghost use Rattle.image.specs.Drawn.{drawn};
ghost use Rattle.cells.specs.Cell.{Near, aside};

use definition::{Pixel, Pixels};
use image::Brush;
pub use set::{BUILT_IN, SET};

// The bytes of a cell, a row each, and the pixels of a row. That a place in a cell is below 8 is asked for and is in no type: it is the number of a loop, and
// would be wrapped at each turn and opened at each use.
pub const SIDE: usize = 8;

// The columns, and the lines, from where a cell lies in the field from end to end.
const STARTS: usize = 505;

// The leftmost and the rightmost column from where a cell has one in the field.
const LEFTMOST: i32 = -7;

const RIGHTMOST: i32 = 511;

// The code of a character that a set has a cell for.
#[derive(Clone, Copy)]
pub struct Code {
    pub value: u8,
    pub ghost known: { is_code value ≡ true },
}

// The cell of a code: a part of the set that serves, and no copy of it.
pub fn cell_of(set: &[u8; SET], code: Code) -> &[u8; SIDE]
    ensures { result.now ≡ cell_of set.now code.value }
{
    let start = SIDE * (usize::from(code.value) - 32);
    <&[u8; SIDE]>::try_from(&set[start..start + SIDE]).unwrap()
}

// ---- a corner, and the pixels of a cell from there
// The lower left corner of a cell. Who draws the cell says of each of its pixels how far right and how far up it is.
trait Corner: Copy {
    ghost at: { Self → Pixel };

    // Whether a row is known to lie above the field or below it.
    fn misses(self, up: u32) -> bool
        requires { up < 8 }
        ensures { result ≡ true → below 512 ((at self).y.0 +ℤ pos up) ≡ false };

    // Stores the pixel if it is in the field: answers how many were stored, 0 or 1.
    fn plot(self, image: &mut [u8; image::BYTES], right: u32, up: u32, brush: Brush) -> u32
        requires { (right < 8) × (up < 8) }
        ensures { left result image.new ≡ drawn (ink_shape brush.ink) (ink_pen brush.ink) image.old (pixel ((at self).x.0 +ℤ pos right) ((at self).y.0 +ℤ pos up) ∷ []) };
}

// A corner from where the cell may lie across an edge of the field: each pixel is asked.
#[derive(Clone, Copy)]
struct Across {
    x: Pixels,
    y: Pixels,
    ghost near_x: { Near x },
    ghost near_y: { Near y },
}

// The coordinate so many pixels further right, or further up.
fn further(p: Pixels, by: u32) -> Pixels
    requires { Near p × (by < 8) }
    ensures { result ≡ pixels (p.0 +ℤ pos by) }
{
    let n = by as i32;
    Pixels(p.0 + n)
}

impl Corner for Across {
    ghost at = { λ c. record { x = c.x; y = c.y } };

    fn misses(self, up: u32) -> bool {
        units::index_in(image::HEIGHT, further(self.y, up)).is_none()
    }

    fn plot(self, image: &mut [u8; image::BYTES], right: u32, up: u32, brush: Brush) -> u32 {
        let p = Pixel {
            x: further(self.x, right),
            y: further(self.y, up),
        };
        image::plot(image, p, brush)
    }
}

// A corner from where the cell lies in the field from end to end: no pixel is asked.
#[derive(Clone, Copy)]
struct Inside {
    x: usize,
    y: usize,
    ghost in_columns: { x + 7 < 512 },
    ghost in_rows: { y + 7 < 512 },
}

impl Corner for Inside {
    ghost at = { λ c. pixel (pos c.x) (pos c.y) };

    fn misses(self, _up: u32) -> bool {
        false
    }

    fn plot(self, image: &mut [u8; image::BYTES], right: u32, up: u32, brush: Brush) -> u32 {
        image::store(image, self.x + right as usize, self.y + up as usize, brush);
        1
    }
}

// ---- a cell
// Bit k of a row, from the left: the highest bit is the leftmost pixel.
fn is_set(row: u8, k: u32) -> bool
    requires { k < 8 }
    ensures { result ≡ is_set row k }
{
    (row >> (7 - k)) % 2 == 1
}

// A set bit lights its pixel; a clear one leaves it as it is.
fn plot_row<C: Corner>(
    image: &mut [u8; image::BYTES],
    row: u8,
    corner: C,
    up: u32,
    brush: Brush,
) -> u32
    requires { up < 8 }
    ensures { left result image.new ≡ drawn (ink_shape brush.ink) (ink_pen brush.ink) image.old (row_pixels (C.at corner).x.0 ((C.at corner).y.0 +ℤ pos up) row) }
{
    let mut count = 0;
    for k in 0..8 {
        if is_set(row, k) {
            count += corner.plot(image, k, up, brush);
        }
    }
    count
}

// The top row first. A row with no bit set, above the field or below it has no pixel to store.
fn plot_cell<C: Corner>(
    image: &mut [u8; image::BYTES],
    cell: &[u8; SIDE],
    corner: C,
    brush: Brush,
) -> u32
    ensures { left result image.new ≡ drawn (ink_shape brush.ink) (ink_pen brush.ink) image.old (cell_pixels (C.at corner) cell.now) }
{
    let mut count = 0;
    for (i, &row) in cell.iter().enumerate() {
        let up = (7 - i) as u32;
        if row == 0 || corner.misses(up) {
            continue;
        }
        count += plot_row(image, row, corner, up, brush);
    }
    count
}

// Whether no column of a cell is in the field: it lies right of it, or left.
fn is_aside(x: Pixels) -> bool
    ensures { result ≡ aside x.0 }
{
    x.0 < LEFTMOST || RIGHTMOST < x.0
}

// A cell by its lower left corner, the top row first: answers how many pixels were stored. Whether it lies in the field from end to end is asked once.
pub fn draw(image: &mut [u8; image::BYTES], cell: &[u8; SIDE], corner: Pixel, brush: Brush) -> u32
    requires { Near corner.x × Near corner.y }
    ensures { left result image.new ≡ drawn (ink_shape brush.ink) (ink_pen brush.ink) image.old (cell_pixels corner cell.now) }
{
    let across = Across {
        x: corner.x,
        y: corner.y,
    };
    let Some(x) = units::index_in(STARTS, corner.x) else {
        if is_aside(corner.x) {
            return 0;
        }
        return plot_cell(image, cell, across, brush);
    };
    let Some(y) = units::index_in(STARTS, corner.y) else {
        return plot_cell(image, cell, across, brush);
    };
    plot_cell(image, cell, Inside { x, y }, brush)
}
