// The step: one instruction, from its first fetch to the machine, the counts and the image that it leaves. A fetch is taken apart by let-else, and not by `?`:
// document 01 names the form (docs/DECISIONS.md, "Forms").
#![tactic(auto)]

ghost use Rattle.std.specs.Prelude.{◌≡◌, true};
ghost use Rattle.definition.specs.Image.{left};
ghost use Rattle.definition.specs.Machine.{in_range};
ghost use Rattle.definition.specs.Step.{second};
ghost use Rattle.definition.specs.Calls.{lending, plain, given};
ghost use Rattle.definition.specs.declared.Order.TheVariants.{Jump};
ghost use Rattle.definition.specs.declared.Item.TheVariants.{LongVector, AbsolutePoint};
ghost use Rattle.definition.specs.declared.Instruction.TheVariants.{Does, Draws};
ghost use Rattle.cells.specs.Lent.{lent};
ghost use Rattle.outcome.specs.Outcome.{told, stepped};
ghost use Rattle.machine.specs.Rest.{Drawable, rest, later, later_step, passed_by};
ghost use Rattle.machine.specs.Fetches.{Firsts, Seconds};

use cells::{Code, SET};
use definition::{Instruction, Item, Machine, Order, Refusal, Unfetched, Units};
use outcome::{Ranged, Stepped};

// What stands after the word at the counter.
fn next_word(file: &[u16], m: Machine) -> Result<u16, Unfetched>
    ensures { result ≡ second (given (plain file.now)) m }
{
    file::fetch(file, outcome::next(m.counter))
}

// The target is the next word, of any value.
fn jump(file: &[u16], m: Machine) -> Stepped
    ensures { result ≡ told (rest (given (plain file.now)) m (Does Jump)) }
{
    let got = next_word(file, m);
    let Ok(target) = got else {
        return outcome::refused_for(m, Refusal::from(got.unwrap_err()));
    };
    let mut n = m;
    n.counter = target;
    outcome::completed(n, 2, 0)
}

// An order of one word: the counter goes past it.
fn passed(m: Machine) -> Stepped
    ensures { result ≡ passed_by m }
{
    let mut n = m;
    n.counter = outcome::next(m.counter);
    outcome::completed(n, 1, 0)
}

fn does(file: &[u16], m: Machine, order: Order) -> Stepped
    ensures { result ≡ told (rest (given (plain file.now)) m (Does order)) }
{
    match order {
        Order::SetMode(bits) => passed(orders::set_mode(m, bits)),
        Order::Jump => jump(file, m),
        Order::NoOp => passed(m),
        Order::StatusA(bits) => passed(orders::status_a(m, bits)),
        Order::Increment(bits) => passed(orders::set_increment(m, bits)),
        Order::StatusC(bits) => passed(orders::status_c(m, bits)),
    }
}

// The second word of a long vector or an absolute point, or what the step is refused for.
fn second_word(file: &[u16], m: Machine) -> Result<u16, Refusal>
    ensures { Seconds (given (plain file.now)) m result }
{
    let got = next_word(file, m);
    let Ok(word) = got else {
        return Err(Refusal::from(got.unwrap_err()));
    };
    words::second_refusal(word)?;
    Ok(word)
}

// A long vector, once its second word is there.
fn long_vector(
    file: &[u16],
    m: Ranged,
    image: &mut [u8; image::BYTES],
    lit: bool,
    dx: Units,
) -> Stepped
    ensures { left result image.new ≡ stepped m image.old (rest (given (plain file.now)) m (Draws lit (LongVector dx))) }
{
    let here = m.machine;
    match second_word(file, here) {
        Ok(word) => items::vector_by(m, image, lit, dx, words::long(word), true),
        Err(why) => outcome::refused_for(here, why),
    }
}

// And an absolute point. The two go on by other items, and so are no one function.
fn absolute_point(
    file: &[u16],
    m: Ranged,
    image: &mut [u8; image::BYTES],
    lit: bool,
    x: Units,
) -> Stepped
    requires { in_range x ≡ true }
    ensures { left result image.new ≡ stepped m image.old (rest (given (plain file.now)) m (Draws lit (AbsolutePoint x))) }
{
    let here = m.machine;
    match second_word(file, here) {
        Ok(word) => items::absolute_point(m, image, lit, x, words::coordinate(word)),
        Err(why) => outcome::refused_for(here, why),
    }
}

fn draws(
    file: &[u16],
    m: Ranged,
    image: &mut [u8; image::BYTES],
    set: Option<&[u8; SET]>,
    lit: bool,
    item: Item,
) -> Stepped
    requires { Drawable lit item }
    ensures { left result image.new ≡ stepped m image.old (later (lent set.entry) m (Draws lit item) (rest (given (lending file.now (lent set.entry))) m (Draws lit item))) }
{
    match item {
        Item::ShortVector { x, y } => items::vector_by(m, image, lit, x, y, false),
        Item::LongVector { x } => long_vector(file, m, image, lit, x),
        Item::AbsolutePoint { x } => absolute_point(file, m, image, lit, x),
        Item::GraphX { x } => items::graph_x(m, image, lit, x),
        Item::GraphY { y } => items::graph_y(m, image, lit, y),
        Item::RelativePoint { x, y } => items::relative_point(m, image, lit, x, y),
        Item::Characters { first, second } => letters::characters(
            m,
            image,
            set,
            Code { value: first },
            Code { value: second },
        ),
    }
}

// The instruction at the counter, or what its first word is refused for.
fn instruction(file: &[u16], m: Machine) -> Result<Instruction, Refusal>
    ensures { Firsts (given (plain file.now)) m result }
{
    let got = file::fetch(file, m.counter);
    let Ok(word) = got else {
        return Err(Refusal::from(got.unwrap_err()));
    };
    words::first_refusal(m.mode, word)?;
    Ok(words::decode(m.mode, word))
}

// What refuses it, in order: 21 to 23 for the first word, 24, 25 or 32, 22 or 23 for the second, 26, 27. While there is no set, a step that would
// draw characters is put off.
pub fn step(
    file: &[u16],
    m: Ranged,
    image: &mut [u8; image::BYTES],
    set: Option<&[u8; SET]>,
) -> Stepped
    ensures { left result image.new ≡ stepped m image.old (later_step (lent set.entry) (given (lending file.now (lent set.entry))) m) }
{
    let here = m.machine;
    match instruction(file, here) {
        Ok(Instruction::Does(order)) => does(file, here, order),
        Ok(Instruction::Draws { lit, item }) => draws(file, m, image, set, lit, item),
        Err(why) => outcome::refused_for(here, why),
    }
}
