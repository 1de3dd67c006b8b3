// The calls for a host program, in plain numbers and slices, as C has them: no call asks anything of its caller. crates/host_c exports them for C, as
// include/roadparsnip.h declares them. Then the number of the interface, by which a host sees whether its header fits the library.
#![tactic(auto)]

ghost use Rattle.std.specs.Prelude.{◌≡◌};
ghost use Rattle.definition.specs.Refusal.{answer_of};
ghost use Rattle.definition.specs.Calls.{lending};
ghost use Rattle.definition.specs.Promises.{PromiseCheck, PromiseClear};
ghost use Rattle.host.specs.Promises.{PromiseHostFresh, PromiseHostStart, PromiseHostRun, PromiseHostStep, PromiseHostRead, PromiseHostInterface};

use definition::{Pixel, Pixels, Refusal};
use numbers::{HostMachine, HostRan, HostRead, HostStarted};

// The number of a call's result: 0, or that of the refusal.
fn answer(done: Result<(), Refusal>) -> u8
    ensures { result ≡ answer_of done }
{
    match done {
        Ok(()) => 0,
        Err(why) => u8::from(why),
    }
}

pub fn roadparsnip_check(file: &[u16]) -> u8
    ensures { PromiseCheck file.now result }
{
    answer(display::check(file))
}

pub fn roadparsnip_fresh() -> HostMachine
    ensures { PromiseHostFresh result }
{
    HostMachine::from(display::fresh())
}

pub fn roadparsnip_start(m: HostMachine, address: u16) -> HostStarted
    ensures { PromiseHostStart m address result }
{
    let (machine, answer) = match display::start(numbers::taken(m), address) {
        Ok(started) => (HostMachine::from(started), 0),
        Err(why) => (m, u8::from(why)),
    };
    HostStarted { machine, answer }
}

pub fn roadparsnip_run(
    file: &[u16],
    m: HostMachine,
    image: &mut [u8],
    budget: u32,
    set: &[u8],
) -> HostRan
    ensures { PromiseHostRun (lending file.now set.now) m image.old budget result image.new }
{
    numbers::ran_of(m, display::run(file, numbers::taken(m), image, budget, set))
}

pub fn roadparsnip_step(file: &[u16], m: HostMachine, image: &mut [u8], set: &[u8]) -> HostRan
    ensures { PromiseHostStep (lending file.now set.now) m image.old result image.new }
{
    numbers::ran_of(m, display::step(file, numbers::taken(m), image, set))
}

pub fn roadparsnip_clear(image: &mut [u8]) -> u8
    ensures { PromiseClear image.old result image.new }
{
    answer(display::clear(image))
}

pub fn roadparsnip_read_pixel(image: &[u8], x: i32, y: i32) -> HostRead
    ensures { PromiseHostRead image.now x y result }
{
    let p = Pixel {
        x: Pixels(x),
        y: Pixels(y),
    };
    let (digit, answer) = match display::read_pixel(image, p) {
        Ok(digit) => (digit, 0),
        Err(why) => (0, u8::from(why)),
    };
    HostRead { digit, answer }
}

pub fn roadparsnip_interface() -> u32
    ensures { PromiseHostInterface result }
{
    numbers::interface_number()
}
