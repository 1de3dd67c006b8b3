// The public calls. Each asks its doors first, and asks nothing of its caller.
#![tactic(auto)]

ghost use Rattle.std.specs.Prelude.{◌≡◌};
ghost use Rattle.definition.specs.Refusal.{refusal_number, answer_of};
ghost use Rattle.definition.specs.Calls.{lending, uncounted, started_of, read_of};
ghost use Rattle.definition.specs.Promises.{PromiseCheck, PromiseFresh, PromiseStart, PromiseRun, PromiseStep, PromiseClear, PromiseRead};

use definition::{Counts, Machine, Pixel, Ran, Refusal};
use outcome::Ranged;

pub fn check(file: &[u16]) -> Result<(), Refusal>
    ensures { PromiseCheck file.now (answer_of result) }
{
    still::check(file)
}

pub fn fresh() -> Machine
    ensures { PromiseFresh result }
{
    still::fresh()
}

// The counter and the status are set, the rest is kept; from every status, and at odd addresses too.
pub fn start(m: Machine, address: u16) -> Result<Machine, Refusal>
    ensures { PromiseStart m address (started_of m result) }
{
    still::start(m, address)
}

// Refused at a door: nothing is counted, and the machine is as given.
fn turned_away(m: Machine, why: Refusal) -> Ran
    ensures { result ≡ uncounted m (refusal_number why) }
{
    Ran {
        answer: u8::from(why),
        counts: Counts::NOTHING,
        machine: m,
    }
}

// A run of budget 1. It asks the doors by itself, as `run` does: with a call of `run` in its place the calls that are refused cost more (decision x).
pub fn step(file: &[u16], m: Machine, image: &mut [u8], set: &[u8]) -> Ran
    ensures { PromiseStep (lending file.now set.now) m image.old result image.new }
{
    if let Err(why) = doors::lent_door(file, image) {
        return turned_away(m, why);
    }
    if let Err(why) = doors::asked_door(m, 1, set) {
        return turned_away(m, why);
    }
    let image = image.as_mut_array().unwrap();
    run::one(file, Ranged { machine: m }, image, set.as_array())
}

// The set is the host's own characters, 760 bytes, or empty: then the built-in set serves.
pub fn run(file: &[u16], m: Machine, image: &mut [u8], budget: u32, set: &[u8]) -> Ran
    ensures { PromiseRun (lending file.now set.now) m image.old budget result image.new }
{
    if let Err(why) = doors::lent_door(file, image) {
        return turned_away(m, why);
    }
    if let Err(why) = doors::asked_door(m, budget, set) {
        return turned_away(m, why);
    }
    let image = image.as_mut_array().unwrap();
    let ranged = Ranged { machine: m };
    run::run(file, ranged, image, budget, set.as_array())
}

pub fn clear(image: &mut [u8]) -> Result<(), Refusal>
    ensures { PromiseClear image.old (answer_of result) image.new }
{
    still::clear(image)
}

pub fn read_pixel(image: &[u8], p: Pixel) -> Result<u8, Refusal>
    ensures { PromiseRead image.now p (read_of result) }
{
    still::read_pixel(image, p)
}
