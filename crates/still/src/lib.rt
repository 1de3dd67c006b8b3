// The calls that make no step: check, fresh, start, clear, read-pixel.
#![tactic(auto)]

ghost use Rattle.std.specs.Prelude.{◌≡◌};
ghost use Rattle.definition.specs.Refusal.{answer_of};
ghost use Rattle.definition.specs.Calls.{started_of, read_of};
ghost use Rattle.definition.specs.Promises.{PromiseCheck, PromiseFresh, PromiseStart, PromiseClear, PromiseRead};

use definition::{Machine, Pixel, Refusal, Units};

pub fn check(file: &[u16]) -> Result<(), Refusal>
    ensures { PromiseCheck file.now (answer_of result) }
{
    file::check(file)
}

pub fn fresh() -> Machine
    ensures { PromiseFresh result }
{
    Machine {
        counter: 0,
        x: Units(0),
        y: Units(0),
        mode: words::NO_MODE,
        value: 3,
        write: true,
        latch: false,
        increment: 0,
        status: 0,
    }
}

// The counter and the status are set, the rest is kept; from every status, and at odd addresses too.
#[tactic(auto, unfolding(definition::specs::Calls::start_call, definition::specs::Machine::machine_doors, definition::specs::Choice::first_of))]
pub fn start(m: Machine, address: u16) -> Result<Machine, Refusal>
    ensures { PromiseStart m address (started_of m result) }
{
    if !doors::ranged(m) {
        return Err(Refusal::BadMachine);
    }
    let mut n = m;
    n.counter = address;
    n.status = 0;
    Ok(n)
}

pub fn clear(image: &mut [u8]) -> Result<(), Refusal>
    ensures { PromiseClear image.old (answer_of result) image.new }
{
    if image.len() != image::BYTES {
        return Err(Refusal::BadImage);
    }
    image::clear(image);
    Ok(())
}

pub fn read_pixel(image: &[u8], p: Pixel) -> Result<u8, Refusal>
    ensures { PromiseRead image.now p (read_of result) }
{
    let Ok(image) = <&[u8; image::BYTES]>::try_from(image) else {
        return Err(Refusal::BadImage);
    };
    let x = units::index_in(image::WIDTH, p.x).ok_or(Refusal::Outside)?;
    let y = units::index_in(image::HEIGHT, p.y).ok_or(Refusal::Outside)?;
    Ok(image::read(image, x, y))
}
