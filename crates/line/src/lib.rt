// From the bytes of a display file to the seven numbers of its line.
#![tactic(auto)]

ghost use Rattle.std.specs.Prelude.{◌≡◌, ◌+◌, ◌*◌, ◌/◌, ◌≤◌, length, take, drop};
ghost use Rattle.io.specs.Counts.{IsPrefixLen};
ghost use Rattle.definition.specs.Image.{blank};
ghost use Rattle.definition.specs.Machine.{fresh};
ghost use Rattle.definition.specs.Calls.{plain, run_call};
ghost use Rattle.definition.specs.Refusal.{refusal_number};
ghost use Rattle.definition.specs.Plot.{words_in, plot_budget, ran_line, refused_line, plot_line};
ghost use Rattle.line.specs.Numbers.{numbers};

use definition::{Refusal, Units};

// The answer is a number, as the line has it: of a refusal, or the last status of a run.
#[derive(Clone, Copy)]
pub struct Line {
    pub answer: u8,
    pub steps: u32,
    pub words: u32,
    pub stores: u32,
    pub counter: u16,
    pub x: Units,
    pub y: Units,
}

const BUDGET: u32 = 1000;

// ---- the numbers
// Puts the words of the bytes, two bytes a word and the low one first, at the start of a list that has room for them, leaves the rest of it, and answers how many they are.
// The number and no slice: its clauses are about the whole list.
pub fn words_of(bytes: &[u8], words: &mut [u16]) -> usize
    requires { length bytes.now / 2 ≤ length words.old }
    ensures prefix_len { IsPrefixLen result words.new }
    ensures words_after { take result words.new ≡ words_in bytes.now }
    ensures words_unchanged { drop result words.new ≡ drop result words.old }
{
    let (pairs, _) = bytes.as_chunks::<2>();
    for (i, pair) in pairs.iter().enumerate() {
        words[i] = u16::from_le_bytes(*pair);
    }
    pairs.len()
}

fn refused(why: Refusal) -> Line
    ensures { numbers result ≡ refused_line (refusal_number why) }
{
    Line {
        answer: u8::from(why),
        steps: 0,
        words: 0,
        stores: 0,
        counter: 0,
        x: Units(0),
        y: Units(0),
    }
}

// A fresh machine, on an image that is cleared, with the built-in characters.
fn line_of_run(file: &[u16]) -> Line
    ensures { numbers result ≡ ran_line (run_call (plain file.now) fresh blank plot_budget).result }
{
    let mut image = [0u8; 65536];
    let ran = display::run(file, display::fresh(), &mut image, BUDGET, b"");
    let x = ran.machine.x;
    let y = ran.machine.y;
    Line {
        answer: ran.answer,
        steps: ran.counts.steps,
        words: ran.counts.words,
        stores: ran.counts.stores,
        counter: ran.machine.counter,
        x,
        y,
    }
}

// A run that is refused at a door leaves the fresh machine as it was, whose numbers are all 0: its line is that of a refusal.
pub fn line_of(bytes: &[u8]) -> Line
    ensures { numbers result ≡ plot_line bytes.now }
{
    if bytes.len() % 2 != 0 {
        return refused(Refusal::BadInput);
    }
    if 65536 < bytes.len() {
        return refused(Refusal::BadInput);
    }
    let mut words = [0u16; 32768];
    let n = words_of(bytes, &mut words);
    line_of_run(&words[..n])
}
