// A vector drawn into the image: the pixels of the whole vector, of which those in the field are stored. docs/VECTORS.md explains the walk.
#![tactic(auto)]

ghost use Rattle.std.specs.Prelude.{◌≡◌, ℕ, ◌<◌, ◌%◌};
ghost use Rattle.definition.specs.Image.{ink_shape, ink_pen, left};
ghost use Rattle.definition.specs.Vector.{numbered, vector};
ghost use Rattle.image.specs.Drawn.{drawn};
ghost use Rattle.course.specs.Course.{above, marks};
ghost use Rattle.vector.specs.Raised.{Reaches};
ghost use Rattle.walk.specs.Walk.{Follows, standing};

use course::{Paces, SoundCourse};
use definition::Pixel;
use image::{BYTES, Brush};
use vector::raised;

fn course_of(a: Pixel, b: Pixel) -> SoundCourse
    requires { Reaches a × Reaches b }
    ensures { Follows a b result.course }
{
    course::course_of(raised(a.x), raised(a.y), raised(b.x), raised(b.y))
}

// So many pixels, from that of a mark on.
fn walk(image: &mut [u8; BYTES], first: usize, p: Paces, count: u32, brush: Brush)
    requires { (i : ℕ) → i < count → marks p first i % above < 262144 }
    ensures { left count image.new ≡ drawn (ink_shape brush.ink) (ink_pen brush.ink) image.old (numbered (λ i. standing (marks p first i)) count) }
{
    let keep = image::kept(brush.ink);
    let set = image::inked(brush);
    let mut at = first;
    for _ in 0..count {
        image::store_at(image, at % course::ABOVE, &keep, &set, brush);
        at = course::step(at, p);
    }
}

// Answers how many pixels were stored. It promises what `vector::draw` does: both are here until the machine takes this walk.
pub fn draw(image: &mut [u8; BYTES], a: Pixel, b: Pixel, brush: Brush) -> u32
    requires { Reaches a × Reaches b }
    ensures { left result image.new ≡ drawn (ink_shape brush.ink) (ink_pen brush.ink) image.old (vector a b) }
{
    let c = course_of(a, b);
    if c.course.long.size == 0 {
        return image::plot(image, a, brush);
    }
    let span = course::span_of(c);
    if span.end <= span.first {
        return 0;
    }
    let count = span.end - span.first;
    let paces = course::paces_of(c);
    let first = course::mark(c, span.first);
    walk(image, first, paces, count, brush);
    count
}
