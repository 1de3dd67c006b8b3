// The calls of crates/host for a host program in C, which include/roadparsnip.h declares: each is that of the same name, with the same clause.
// C calls these, and crates of Rattle call those of host.
#![tactic(auto)]

ghost use Rattle.definition.specs.Calls.{lending};
ghost use Rattle.definition.specs.Promises.{PromiseCheck, PromiseClear};
ghost use Rattle.host.specs.Promises.{PromiseHostFresh, PromiseHostStart, PromiseHostRun, PromiseHostStep, PromiseHostRead, PromiseHostInterface};

use numbers::{HostMachine, HostRan, HostRead, HostStarted};

#[unsafe(no_mangle)]
pub extern "C" fn roadparsnip_check(file: &[u16]) -> u8
    ensures { PromiseCheck file.now result }
{
    host::roadparsnip_check(file)
}

#[unsafe(no_mangle)]
pub extern "C" fn roadparsnip_fresh() -> HostMachine
    ensures { PromiseHostFresh result }
{
    host::roadparsnip_fresh()
}

#[unsafe(no_mangle)]
pub extern "C" fn roadparsnip_start(m: HostMachine, address: u16) -> HostStarted
    ensures { PromiseHostStart m address result }
{
    host::roadparsnip_start(m, address)
}

#[unsafe(no_mangle)]
pub extern "C" fn roadparsnip_run(
    file: &[u16],
    m: HostMachine,
    image: &mut [u8],
    budget: u32,
    set: &[u8],
) -> HostRan
    ensures { PromiseHostRun (lending file.now set.now) m image.old budget result image.new }
{
    host::roadparsnip_run(file, m, image, budget, set)
}

#[unsafe(no_mangle)]
pub extern "C" fn roadparsnip_step(
    file: &[u16],
    m: HostMachine,
    image: &mut [u8],
    set: &[u8],
) -> HostRan
    ensures { PromiseHostStep (lending file.now set.now) m image.old result image.new }
{
    host::roadparsnip_step(file, m, image, set)
}

#[unsafe(no_mangle)]
pub extern "C" fn roadparsnip_clear(image: &mut [u8]) -> u8
    ensures { PromiseClear image.old result image.new }
{
    host::roadparsnip_clear(image)
}

#[unsafe(no_mangle)]
pub extern "C" fn roadparsnip_read_pixel(image: &[u8], x: i32, y: i32) -> HostRead
    ensures { PromiseHostRead image.now x y result }
{
    host::roadparsnip_read_pixel(image, x, y)
}

#[unsafe(no_mangle)]
pub extern "C" fn roadparsnip_interface() -> u32
    ensures { PromiseHostInterface result }
{
    host::roadparsnip_interface()
}
