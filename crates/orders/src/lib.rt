// The orders, the jump apart: what each sets in the machine, but for the counter.
#![tactic(auto)]

ghost use Rattle.std.specs.Prelude.{◌≡◌};
ghost use Rattle.definition.specs.Step.{ordered};
ghost use Rattle.definition.specs.declared.Order.TheVariants.{SetMode, StatusA, Increment, StatusC};

use definition::{IncrementBits, Machine, ModeBits, StopBits, WriteBits};

#[tactic(auto, unfolding(definition::specs::Step::ordered))]
pub fn set_mode(mut m: Machine, bits: ModeBits) -> Machine
    ensures { result ≡ ordered m (SetMode bits) }
{
    m.mode = bits.mode;
    if bits.sets {
        m.value = bits.value;
    }
    m
}

// A stop goes by the latch as it stands after the load.
#[tactic(auto, unfolding(definition::specs::Step::ordered))]
pub fn status_a(mut m: Machine, bits: StopBits) -> Machine
    ensures { result ≡ ordered m (StatusA bits) }
{
    if bits.loads {
        m.latch = bits.latch;
    }
    if bits.stops {
        m.status = if m.latch { 2 } else { 1 };
    }
    m
}

#[tactic(auto, unfolding(definition::specs::Step::ordered))]
pub fn set_increment(mut m: Machine, bits: IncrementBits) -> Machine
    ensures { result ≡ ordered m (Increment bits) }
{
    if bits.sets {
        m.increment = bits.increment;
    }
    m
}

#[tactic(auto, unfolding(definition::specs::Step::ordered))]
pub fn status_c(mut m: Machine, bits: WriteBits) -> Machine
    ensures { result ≡ ordered m (StatusC bits) }
{
    if bits.channel == 0 {
        m.write = bits.write;
    }
    m
}
