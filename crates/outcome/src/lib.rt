// How a step ends: refused, put off, or completed with the counter past its words.
#![tactic(auto)]

mod ranged;

ghost use Rattle.std.specs.Prelude.{◌≡◌};
ghost use Rattle.definition.specs.Refusal.{refusal_number};
ghost use Rattle.definition.specs.Machine.{next};
ghost use Rattle.definition.specs.Step.{refuses};
ghost use Rattle.outcome.specs.Outcome.{told, no_set, completed, words_if, arrived};

use definition::{Counts, Machine, Refusal, Units};
pub use ranged::Ranged;

// The status of a step that was put off: it would draw characters, and no set is there yet. `run` takes the step again with the built-in set, so that no
// caller sees this status. A number and no case of an enum: `put_off` promises it as the status, as `letters::characters` and `machine::step` do.
pub const NO_SET: u8 = 254;

// What a step answers: the machine that it leaves, and what it counts.
#[derive(Clone, Copy)]
pub struct Stepped {
    pub machine: Machine,
    pub counts: Counts,
}

// The counter goes up by 2 a word, and after 65,534 comes 0.
pub fn next(counter: u16) -> u16
    ensures { result ≡ next counter }
{
    counter.wrapping_add(2)
}

// A step that does not complete sets the status and nothing else, and is not counted.
pub fn refused(mut m: Machine, why: u8) -> Stepped
    ensures { result ≡ told (refuses m why) }
{
    m.status = why;
    Stepped {
        machine: m,
        counts: Counts::NOTHING,
    }
}

// With the number of a refusal.
pub fn refused_for(m: Machine, why: Refusal) -> Stepped
    ensures { result ≡ told (refuses m (refusal_number why)) }
{
    refused(m, u8::from(why))
}

pub fn put_off(m: Machine) -> Stepped
    ensures { result ≡ told (refuses m no_set) }
{
    refused(m, NO_SET)
}

// A step that completes counts one step, and its words and stores.
pub fn completed(m: Machine, words: u32, stores: u32) -> Stepped
    ensures { result ≡ completed m words stores }
{
    Stepped {
        machine: m,
        counts: Counts {
            steps: 1,
            words,
            stores,
        },
    }
}

// An item that completes: at its new position, the counter past its words. X and Y are two, as the machine has them.
pub fn placed(mut m: Machine, second: bool, x: Units, y: Units, stores: u32) -> Stepped
    ensures { result ≡ completed (arrived m second x y) (words_if second) stores }
{
    m.x = x;
    m.y = y;
    m.counter = next(m.counter);
    if second {
        m.counter = next(m.counter);
        return completed(m, 2, stores);
    }
    completed(m, 1, stores)
}
