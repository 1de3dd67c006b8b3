// The run: one step after another, while there is budget left and the machine runs. Where no set is lent, the built-in one serves from the first step on
// that draws with it.
#![tactic(auto)]

ghost use Rattle.std.specs.Prelude.{◌≡◌, true, ◌-◌, ◌≤◌};
ghost use Rattle.definition.specs.Image.{left};
ghost use Rattle.definition.specs.Machine.{ranged};
ghost use Rattle.definition.specs.Run.{begun, run};
ghost use Rattle.definition.specs.Calls.{lending, plain, given, answered};
ghost use Rattle.cells.specs.Lent.{lent};
ghost use Rattle.run.specs.Walked.{Within, awake, state, Walked};

use cells::SET;
use definition::{Counts, Ran};
use outcome::Ranged;

// The run, or as much of it as comes before a step that was put off. Then the status is NO_SET.
fn walk(
    file: &[u16],
    m: Ranged,
    image: &mut [u8; image::BYTES],
    set: Option<&[u8; SET]>,
    budget: u32,
) -> Ran
    requires { budget ≤ 1000000 }
    ensures { Walked (lent set.entry) (given (lending file.now (lent set.entry))) budget m image.old result image.new }
{
    let mut here = m.machine;
    let mut counts = Counts::NOTHING;
    // A step that is refused or put off is not counted; its status ends the loop. No `for`: it would count turns beside the steps, which are counted anyway.
    while counts.steps < budget {
        if here.status != 0 {
            break;
        }
        let taken = machine::step(file, Ranged { machine: here }, image, set);
        here = taken.machine;
        counts = counts + taken.counts;
    }
    Ran {
        answer: here.status,
        counts,
        machine: here,
    }
}

// The rest of a run, from the step that was put off, with the built-in set.
fn go_on(file: &[u16], first: Ran, image: &mut [u8; image::BYTES], budget: u32) -> Ran
    requires { (ranged (awake first.machine) ≡ true) × (budget ≤ 1000000) × Within budget first.counts }
    ensures { left result image.new ≡ answered (run (given (plain file.now)) (budget - first.counts.steps) (state (awake first.machine) image.old first.counts)) }
{
    let mut here = first.machine;
    here.status = 0;
    let left = budget - first.counts.steps;
    let rest = walk(
        file,
        Ranged { machine: here },
        image,
        Some(&cells::BUILT_IN),
        left,
    );
    Ran {
        counts: first.counts + rest.counts,
        ..rest
    }
}

// The budget is asked for and is no type: one would be built in as many places as it is asked for.
pub fn run(
    file: &[u16],
    m: Ranged,
    image: &mut [u8; image::BYTES],
    budget: u32,
    set: Option<&[u8; SET]>,
) -> Ran
    requires { budget ≤ 1000000 }
    ensures { left result image.new ≡ answered (run (given (lending file.now (lent set.entry))) budget (begun m image.old)) }
{
    let first = walk(file, m, image, set, budget);
    if first.answer == outcome::NO_SET {
        return go_on(file, first, image, budget);
    }
    first
}

// A run of budget 1.
pub fn one(file: &[u16], m: Ranged, image: &mut [u8; image::BYTES], set: Option<&[u8; SET]>) -> Ran
    ensures { left result image.new ≡ answered (run (given (lending file.now (lent set.entry))) 1 (begun m image.old)) }
{
    run(file, m, image, 1, set)
}
