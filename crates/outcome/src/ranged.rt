// A machine in range: what the items, the step and the run take for granted.
ghost use Rattle.std.specs.Prelude.{◌≡◌, true};
ghost use Rattle.definition.specs.Machine.{ranged};
ghost use Rattle.definition.specs.declared.Machine.{Machine};

use definition::Machine;
use std::marker::Model;

// In a contract it is the machine itself. Who makes one proves that every field is in its range.
#[derive(Clone, Copy)]
pub struct Ranged {
    pub machine: Machine,
}

impl Model for Ranged {
    ghost Value = { Machine };

    ghost view = { λ r. r.machine };

    ghost invariant = { λ r. ranged r.machine ≡ true };

    ghost inverse = { λ m. record { machine = m } };
}
