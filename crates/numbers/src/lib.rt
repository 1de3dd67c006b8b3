// The machine in numbers, as a host program in C holds it: what a call takes of it, and what it gives back.
#![tactic(auto)]

ghost use Rattle.std.specs.Prelude.{◌≡◌};
ghost use Rattle.numbers.specs.Numbers.{numbers_of, machine_of, flags, taken, given_back, ran_of, interface};

use definition::{Machine, Ran, Units};

// Numbers all through, as C may give any byte for a flag, and has neither Option nor Result: here, in the three types below and in the answers of host and
// host_c. The fields are in an order that leaves no gap between two. A flag that is neither 0 nor 1 is out of range.
#[repr(C)]
#[derive(Clone, Copy)]
pub struct HostMachine {
    pub x: i32,
    pub y: i32,
    pub counter: u16,
    pub mode: u8,
    pub value: u8,
    pub write: u8,
    pub latch: u8,
    pub increment: u8,
    pub status: u8,
}

#[repr(C)]
#[derive(Clone, Copy)]
pub struct HostStarted {
    pub machine: HostMachine,
    pub answer: u8,
}

#[repr(C)]
#[derive(Clone, Copy)]
pub struct HostRan {
    pub machine: HostMachine,
    pub steps: u32,
    pub words: u32,
    pub stores: u32,
    pub answer: u8,
}

#[repr(C)]
#[derive(Clone, Copy)]
pub struct HostRead {
    pub digit: u8,
    pub answer: u8,
}

// No pixel value.
const SPOILT: u8 = 255;

impl From<Machine> for HostMachine {
    ghost from_gives = { λ m numbers. numbers ≡ numbers_of m };

    fn from(m: Machine) -> HostMachine {
        HostMachine {
            x: m.x.0,
            y: m.y.0,
            counter: m.counter,
            mode: m.mode,
            value: m.value,
            write: u8::from(m.write),
            latch: u8::from(m.latch),
            increment: m.increment,
            status: m.status,
        }
    }
}

// No From: where a flag is neither 0 nor 1, this takes it for off and is no conversion.
fn machine_of(m: HostMachine) -> Machine
    ensures { result ≡ machine_of m }
{
    Machine {
        counter: m.counter,
        x: Units(m.x),
        y: Units(m.y),
        mode: m.mode,
        value: m.value,
        write: m.write == 1,
        latch: m.latch == 1,
        increment: m.increment,
        status: m.status,
    }
}

#[tactic(auto, unfolding(crate::specs::Numbers::flags))]
fn flags(m: HostMachine) -> bool
    ensures { result ≡ flags m }
{
    m.write <= 1 && m.latch <= 1
}

// The machine that a call works on. Where a flag is out of range its pixel value is so too: the call answers what comes before 16, or 16.
#[tactic(auto, unfolding(crate::specs::Numbers::taken))]
pub fn taken(m: HostMachine) -> Machine
    ensures { result ≡ taken m }
{
    let n = machine_of(m);
    if flags(m) {
        return n;
    }
    Machine { value: SPOILT, ..n }
}

// What a call left of the machine that it worked on. One with a flag out of range is refused: it gets back the value and the flags that it came with.
#[tactic(auto, unfolding(crate::specs::Numbers::given_back))]
pub fn given_back(m: HostMachine, n: Machine) -> HostMachine
    ensures { result ≡ given_back m n }
{
    let k = HostMachine::from(n);
    if flags(m) {
        return k;
    }
    HostMachine {
        value: m.value,
        write: m.write,
        latch: m.latch,
        ..k
    }
}

// What a run or a step answered, in numbers.
#[tactic(auto, unfolding(crate::specs::Numbers::ran_of))]
pub fn ran_of(m: HostMachine, ran: Ran) -> HostRan
    ensures { result ≡ ran_of m ran }
{
    HostRan {
        machine: given_back(m, ran.machine),
        steps: ran.counts.steps,
        words: ran.counts.words,
        stores: ran.counts.stores,
        answer: ran.answer,
    }
}

// The number of the interface in C, the same as ROADPARSNIP_INTERFACE in include/roadparsnip.h.
// Raise both, and `interface` of specs/Numbers.antt, when a record or a signature of that header changes.
const INTERFACE: u32 = 3;

pub fn interface_number() -> u32
    ensures { result ≡ interface }
{
    INTERFACE
}
