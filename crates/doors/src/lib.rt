// The doors of a call: the ranges of a machine's fields, and all that a run asks before its first step, in two parts.
#![tactic(auto)]

ghost use Rattle.std.specs.Prelude.{◌≡◌, ◌||◌, eqb, length};
ghost use Rattle.definition.specs.Machine.{is_mode, is_status, ranged};
ghost use Rattle.definition.specs.Refusal.{answer_of};
ghost use Rattle.definition.specs.Characters.{set_bytes};
ghost use Rattle.doors.specs.Doors.{lent_door, asked_door};

use definition::{Machine, Refusal};

const MOST_STEPS: u32 = 1000000;

// As `cells::SET`, which this crate does not stand on.
const SET_BYTES: usize = 760;

const LARGEST_VALUE: u8 = 3;

const LARGEST_INCREMENT: u8 = 63;

// A mode and a status are numbers, since those of no machine come too, and are refused.
#[tactic(auto, unfolding(definition::specs::Machine::is_mode, definition::specs::Words::sets_mode))]
fn is_mode(mode: u8) -> bool
    ensures { result ≡ is_mode mode }
{
    matches!(mode, 0..=6 | words::NO_MODE)
}

#[tactic(auto, unfolding(definition::specs::Machine::is_status))]
fn is_status(status: u8) -> bool
    ensures { result ≡ is_status status }
{
    matches!(status, 0..=2 | 21..=27 | 32)
}

// Every field is in its range, or else 16.
#[tactic(auto, unfolding(definition::specs::Machine::ranged))]
pub fn ranged(m: Machine) -> bool
    ensures { result ≡ ranged m }
{
    units::in_range(m.x)
        && units::in_range(m.y)
        && is_mode(m.mode)
        && m.value <= LARGEST_VALUE
        && m.increment <= LARGEST_INCREMENT
        && is_status(m.status)
}

// A lent set of characters: none, or a whole one.
fn is_set(set: &[u8]) -> bool
    ensures { result ≡ eqb (length set.now) 0 || eqb (length set.now) set_bytes }
{
    set.is_empty() || set.len() == SET_BYTES
}

// The first doors of a run, in this order: 11, 12 to 15.
#[tactic(auto, unfolding(crate::specs::Doors::lent_doors, definition::specs::Calls::image_doors, definition::specs::Choice::first_of, definition::specs::Calls::check_call))]
pub fn lent_door(file: &[u16], image: &[u8]) -> Result<(), Refusal>
    ensures { answer_of result ≡ lent_door file.now image.now }
{
    if image.len() != image::BYTES {
        return Err(Refusal::BadImage);
    }
    file::check(file)
}

// The doors after them, in this order: 16, 17, 18, 28. They are a function of their own so that a call has both in place (docs/PERFORMANCE.md).
#[tactic(auto, unfolding(crate::specs::Doors::asked_doors, definition::specs::Machine::machine_doors, definition::specs::Calls::budget_doors, definition::specs::Calls::set_doors, definition::specs::Calls::running_doors, definition::specs::Choice::first_of))]
pub fn asked_door(m: Machine, budget: u32, set: &[u8]) -> Result<(), Refusal>
    ensures { answer_of result ≡ asked_door m budget set.now }
{
    if !ranged(m) {
        return Err(Refusal::BadMachine);
    }
    if MOST_STEPS < budget {
        return Err(Refusal::BadBudget);
    }
    if !is_set(set) {
        return Err(Refusal::BadSet);
    }
    if m.status != 0 {
        return Err(Refusal::NotRunning);
    }
    Ok(())
}
