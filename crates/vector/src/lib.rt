// A vector drawn into the image: the pixels of the whole vector, of which those in the field are stored.
#![tactic(auto)]

ghost use Rattle.std.specs.Prelude.{◌≡◌, ◌<◌, ◌≤◌, max, leb, pos, nat_abs, ◌+ℤ◌, ◌-ℤ◌};
ghost use Rattle.definition.specs.Units.{pixels, pixel};
ghost use Rattle.definition.specs.Image.{ink_shape, ink_pen, left};
ghost use Rattle.definition.specs.Vector.{by_one, rounded, nth, vector};
ghost use Rattle.image.specs.Drawn.{drawn};
ghost use Rattle.vector.specs.Raised.{Reached, Reaches, nearest_to};

use definition::{Pixel, Pixels};
use image::{BYTES, Brush};

// What a vector does along one axis.
#[derive(Clone, Copy)]
struct Axis {
    start: Pixels,
    end: Pixels,
    ghost starts: { Reached start },
    ghost ends: { Reached end },
}

// A vector by its axes: `across` says that the longer one is X, and `length` how many steps that one makes.
#[derive(Clone, Copy)]
struct Line {
    x: Axis,
    y: Axis,
    across: bool,
    length: u32,
    ghost axis: { across ≡ leb (nat_abs (y.end.0 -ℤ y.start.0)) (nat_abs (x.end.0 -ℤ x.start.0)) },
    ghost steps: { length ≡ max (nat_abs (x.end.0 -ℤ x.start.0)) (nat_abs (y.end.0 -ℤ y.start.0)) },
    ghost few: { length < 4096 },
}

// A coordinate counted from the lowest one, which is never below zero. That it is reached is asked for, here and by both `draw`s, and is in no type: pixels
// would have to be wrapped in `items` and in crates/parts, and opened at each use.
pub fn raised(p: Pixels) -> u32
    requires { Reached p }
    ensures { (pos result ≡ p.0 +ℤ pos 2048) × (result < 4096) }
{
    (p.0 + 2048) as u32
}

// The point that lies i of n parts of the way from s to e, plus one half, rounded down.
#[tactic(auto, using(crate::proofs::CoordinateLaws::parts_fit))]
fn nearest(s: u32, e: u32, n: u32, i: u32) -> u32
    requires { (s < 4096) × (e < 4096) × (0 < n) × (n < 4096) × (i ≤ n) }
    ensures { result ≡ nearest_to s e n i }
{
    let numerator = 2 * (s * (n - i) + e * i) + n;
    numerator / (2 * n)
}

impl Axis {
    fn size(self) -> u32
        ensures { (result ≡ nat_abs (self.end.0 -ℤ self.start.0)) × (result < 4096) }
    {
        self.end.0.abs_diff(self.start.0)
    }

    // The longer axis: one each time, up or down.
    fn by_one(self, i: u32) -> Pixels
        requires { i < 4096 }
        ensures { result ≡ pixels (by_one self.start.0 (self.end.0 -ℤ self.start.0) i) }
    {
        let s = self.start.0;
        let e = self.end.0;
        let k = i as i32;
        Pixels(if s <= e { s + k } else { s - k })
    }

    // The other axis: what is divided is raised, so that the division rounds down on both sides of zero.
    fn rounded(self, n: u32, i: u32) -> Pixels
        requires { (0 < n) × (n < 4096) × (i ≤ n) }
        ensures { result ≡ pixels (rounded self.start.0 (self.end.0 -ℤ self.start.0) n i) }
    {
        let q = nearest(raised(self.start), raised(self.end), n, i);
        Pixels(q as i32 - 2048)
    }
}

impl Line {
    fn between(a: Pixel, b: Pixel) -> Line
        requires { Reaches a × Reaches b }
        ensures start { pixel result.x.start.0 result.y.start.0 ≡ a }
        ensures end { pixel result.x.end.0 result.y.end.0 ≡ b }
    {
        let x = Axis {
            start: a.x,
            end: b.x,
        };
        let y = Axis {
            start: a.y,
            end: b.y,
        };
        Line {
            x,
            y,
            across: y.size() <= x.size(),
            length: x.size().max(y.size()),
        }
    }

    fn nth(self, i: u32) -> Pixel
        requires { (0 < self.length) × (i ≤ self.length) }
        ensures { result ≡ nth (pixel self.x.start.0 self.y.start.0) (pixel self.x.end.0 self.y.end.0) i }
    {
        if self.across {
            Pixel {
                x: self.x.by_one(i),
                y: self.y.rounded(self.length, i),
            }
        } else {
            Pixel {
                x: self.x.rounded(self.length, i),
                y: self.y.by_one(i),
            }
        }
    }
}

// Answers how many pixels were stored.
pub fn draw(image: &mut [u8; BYTES], a: Pixel, b: Pixel, brush: Brush) -> u32
    requires { Reaches a × Reaches b }
    ensures { left result image.new ≡ drawn (ink_shape brush.ink) (ink_pen brush.ink) image.old (vector a b) }
{
    let line = Line::between(a, b);
    if line.length == 0 {
        return image::plot(image, a, brush);
    }
    let mut count = 0;
    for i in 0..=line.length {
        count += image::plot(image, line.nth(i), brush);
    }
    count
}
