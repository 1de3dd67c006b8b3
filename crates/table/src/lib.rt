// A table on standard output: on each line a case, what came out and what is expected; and at the end how many lines there are and how
// many differ. What cannot be written is left out.
#![tactic(auto)]

ghost use Rattle.std.specs.Prelude.{◌≡◌, ⊤, ◌+◌, ◌%◌, ◌^◌, if◌then◌else◌};

use std::alloc::AllocError;
use std::fmt::Display;

// The lines so far, and those of them that differ.
pub struct Table<'a, P: Print> {
    out: &'a P,
    pub lines: u32,
    pub differ: u32,
}

impl<P: Print> Clone for Table<'_, P> {
    ghost is_clone = { λ x y. y ≡ x };

    ghost is_infallible = { λ _. ⊤ };

    fn clone(&self) -> Result<Self, AllocError> {
        Ok(*self)
    }
}

impl<P: Print> Copy for Table<'_, P> {}

fn say(rt: &impl Print, text: &[u8]) {
    let _ = rt.write_all(text);
}

// A case, and spaces up to column 36.
fn case(rt: &impl Print, name: &[u8]) {
    say(rt, name);
    say(rt, [b' '; 36].get(name.len()..).unwrap_or(b""));
}

// A table that has its head, and no line yet.
pub fn head<P: Print>(out: &P) -> Table<'_, P>
    ensures lines { result.lines ≡ 0 }
    ensures differ { result.differ ≡ 0 }
{
    case(out, b"case");
    say(out, b"        got   expected\n");
    Table {
        out,
        lines: 0,
        differ: 0,
    }
}

impl<P: Print> Table<'_, P> {
    // Each number to the right of ten columns and a sign.
    pub fn row<T: Display + PartialEq + Copy>(&mut self, name: &[u8], got: T, expected: T)
        ensures lines { self.new.lines ≡ (self.old.lines + 1) % 2 ^ 32 }
        ensures differ { self.new.differ ≡ (if T.eq got expected then self.old.differ else (self.old.differ + 1) % 2 ^ 32) }
    {
        case(self.out, name);
        let _ = print!(self.out; "{got:>11}");
        let _ = print!(self.out; "{expected:>11}");
        say(self.out, b"\n");
        self.lines = self.lines.wrapping_add(1);
        if got != expected {
            self.differ = self.differ.wrapping_add(1);
        }
    }

    pub fn foot(self) {
        let Table { out, lines, differ } = self;
        let _ = println!(out; "{lines} lines, {differ} differ");
    }
}
