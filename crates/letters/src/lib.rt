// A word of two characters, its codes not refused: 27, or put off, or both drawn and X past them.
#![tactic(auto)]

ghost use Rattle.std.specs.Prelude.{◌≡◌, true, false, ◌*◌, pos, length};
ghost use Rattle.definition.specs.Units.{units, moved};
ghost use Rattle.definition.specs.Image.{left};
ghost use Rattle.definition.specs.BuiltIn.{built_in};
ghost use Rattle.definition.specs.Characters.{set_bytes, chosen};
ghost use Rattle.definition.specs.Machine.{shape_of, pen_of, in_range};
ghost use Rattle.definition.specs.Step.{way, advance, character_at};
ghost use Rattle.definition.specs.Step.Change.{Stay, Move};
ghost use Rattle.image.specs.Drawn.{drawn};
ghost use Rattle.cells.specs.Lent.{lent};
ghost use Rattle.outcome.specs.Outcome.{stepped, put_off};
ghost use Rattle.items.specs.Goes.{lights, goes};
ghost use Rattle.letters.specs.Pair.{pair_pixels};

use cells::{Code, SET};
use definition::{Refusal, Units};
use outcome::{Ranged, Stepped};

// Each character advances X by so many units.
const ADVANCE: i32 = 16;

// One character by a set, the lower left corner of its cell at the pixel of (x, Y).
fn letter_of(
    m: Ranged,
    image: &mut [u8; image::BYTES],
    set: &[u8; SET],
    code: Code,
    x: Units,
) -> u32
    requires { in_range x ≡ true }
    ensures { left result image.new ≡ drawn (shape_of m) (pen_of m) image.old (character_at set.now m x m.y code.value) }
{
    let corner = units::pixel_at(x, m.machine.y);
    cells::draw(image, cells::cell_of(set, code), corner, items::brush_of(m))
}

// The first character at the position, the second where the first has led. Nothing is drawn while write is off.
fn both(
    m: Ranged,
    image: &mut [u8; image::BYTES],
    set: &[u8; SET],
    first: Code,
    second: Code,
) -> u32
    requires { in_range (moved m.x (units (pos advance))) ≡ true }
    ensures stores { left result image.new ≡ lights m true image.old (pair_pixels set.now m first.value second.value) }
    ensures whole { length set.now ≡ set_bytes }
{
    let here = m.machine;
    if !here.write {
        return 0;
    }
    let stores = letter_of(m, image, set, first, here.x);
    let next = units::moved_by(here.x, Units(ADVANCE));
    stores + letter_of(m, image, set, second, next)
}

// X goes past both characters, or out of its range, and then neither is drawn. While no set is there, the word is put off.
pub fn characters(
    m: Ranged,
    image: &mut [u8; image::BYTES],
    set: Option<&[u8; SET]>,
    first: Code,
    second: Code,
) -> Stepped
    ensures { left result image.new ≡ stepped m image.old (put_off true (lent set.entry) m (goes m true (way (Move (units (pos (2 * advance)))) Stay) (pair_pixels (chosen (lent set.entry) built_in) m first.value second.value) false)) }
{
    let here = m.machine;
    let Some(x) = units::moved_to(here.x, Units(2 * ADVANCE)) else {
        return outcome::refused_for(here, Refusal::OutOfRange);
    };
    let Some(set) = set else {
        return outcome::put_off(here);
    };
    let stores = both(m, image, set, first, second);
    outcome::placed(here, false, x, here.y, stores)
}
