// The items, their words not refused: 27, or where each goes and what it draws.
#![tactic(auto)]

ghost use Rattle.std.specs.Prelude.{◌≡◌, true, false, ◌&&◌, ◌<◌, pos};
ghost use Rattle.definition.specs.Units.{units, moved};
ghost use Rattle.definition.specs.Image.{left};
ghost use Rattle.definition.specs.Machine.{ink_of, in_range};
ghost use Rattle.definition.specs.Step.{way, point_at, vector_by};
ghost use Rattle.definition.specs.Step.Change.{Set, Move};
ghost use Rattle.outcome.specs.Outcome.{stepped};
ghost use Rattle.items.specs.Goes.{vector_to, lights, goes};
ghost use Rattle.items.specs.Ends.{Ends};

use definition::{Ink, Machine, Refusal, Units};
use image::Brush;
use outcome::{Ranged, Stepped};

// Whether an item goes into the image at all: it must be lit, and write on.
fn keeps(lit: bool, write: bool) -> bool
    ensures { result ≡ lit && write }
{
    lit && write
}

// What the machine's stores write with.
pub fn brush_of(m: Ranged) -> Brush
    ensures { result.ink ≡ ink_of m }
{
    Brush {
        ink: Ink {
            value: m.machine.value,
        },
    }
}

// At (x, y).
fn point(m: Ranged, image: &mut [u8; image::BYTES], lit: bool, x: Units, y: Units) -> u32
    ensures { left result image.new ≡ lights m lit image.old (point_at m x y) }
{
    if !keeps(lit, m.machine.write) {
        return 0;
    }
    image::plot(image, units::pixel_at(x, y), brush_of(m))
}

// From the position to (x, y). That both are in range is asked, here and below, and is in no type: one would be built in eight places, for six functions.
fn line(m: Ranged, image: &mut [u8; image::BYTES], lit: bool, x: Units, y: Units) -> u32
    requires { (in_range x ≡ true) × (in_range y ≡ true) }
    ensures { left result image.new ≡ lights m lit image.old (vector_to m x y) }
{
    if !keeps(lit, m.machine.write) {
        return 0;
    }
    let from = units::pixel_at(m.machine.x, m.machine.y);
    vector::draw(image, from, units::pixel_at(x, y), brush_of(m))
}

// Where a move from the position ends, or nowhere within the range.
fn end_of(m: Machine, dx: Units, dy: Units) -> Option<(Units, Units)>
    ensures { Ends m dx dy result }
{
    let x = units::moved_to(m.x, dx)?;
    let y = units::moved_to(m.y, dy)?;
    Some((x, y))
}

// A short vector, and a long one, which has a second word.
pub fn vector_by(
    m: Ranged,
    image: &mut [u8; image::BYTES],
    lit: bool,
    dx: Units,
    dy: Units,
    second: bool,
) -> Stepped
    ensures { left result image.new ≡ stepped m image.old (goes m lit (way (Move dx) (Move dy)) (vector_by m dx dy) second) }
{
    let here = m.machine;
    let Some((x, y)) = end_of(here, dx, dy) else {
        return outcome::refused_for(here, Refusal::OutOfRange);
    };
    let stores = line(m, image, lit, x, y);
    outcome::placed(here, second, x, y, stores)
}

// Moves as a short vector does, and plots the end alone. A function of its own, as what it lights and promises is another.
pub fn relative_point(
    m: Ranged,
    image: &mut [u8; image::BYTES],
    lit: bool,
    dx: Units,
    dy: Units,
) -> Stepped
    ensures { left result image.new ≡ stepped m image.old (goes m lit (way (Move dx) (Move dy)) (point_at m (moved m.x dx) (moved m.y dy)) false) }
{
    let here = m.machine;
    let Some((x, y)) = end_of(here, dx, dy) else {
        return outcome::refused_for(here, Refusal::OutOfRange);
    };
    let stores = point(m, image, lit, x, y);
    outcome::placed(here, false, x, y, stores)
}

pub fn absolute_point(
    m: Ranged,
    image: &mut [u8; image::BYTES],
    lit: bool,
    x: Units,
    y: Units,
) -> Stepped
    requires { (in_range x ≡ true) × (in_range y ≡ true) }
    ensures { left result image.new ≡ stepped m image.old (goes m lit (way (Set x) (Set y)) (point_at m x y) true) }
{
    let here = m.machine;
    outcome::placed(here, true, x, y, point(m, image, lit, x, y))
}

// By how much a graph steps.
fn increment_of(m: Machine) -> Units
    ensures { result ≡ units (pos m.increment) }
{
    Units(i32::from(m.increment))
}

// Plots at the Y that it finds, and only then raises Y by the increment. Two functions, for X and for Y: one would have to swap the axes on the way in and
// out, which is no plainer.
pub fn graph_x(m: Ranged, image: &mut [u8; image::BYTES], lit: bool, x: Units) -> Stepped
    requires { in_range x ≡ true }
    ensures { left result image.new ≡ stepped m image.old (goes m lit (way (Set x) (Move (units (pos m.increment)))) (point_at m x m.y) false) }
{
    let here = m.machine;
    let Some(y) = units::moved_to(here.y, increment_of(here)) else {
        return outcome::refused_for(here, Refusal::OutOfRange);
    };
    let stores = point(m, image, lit, x, here.y);
    outcome::placed(here, false, x, y, stores)
}

// Plots at the X that it finds, and only then raises X by the increment.
pub fn graph_y(m: Ranged, image: &mut [u8; image::BYTES], lit: bool, y: Units) -> Stepped
    requires { in_range y ≡ true }
    ensures { left result image.new ≡ stepped m image.old (goes m lit (way (Move (units (pos m.increment))) (Set y)) (point_at m m.x y) false) }
{
    let here = m.machine;
    let Some(x) = units::moved_to(here.x, increment_of(here)) else {
        return outcome::refused_for(here, Refusal::OutOfRange);
    };
    let stores = point(m, image, lit, here.x, y);
    outcome::placed(here, false, x, y, stores)
}
