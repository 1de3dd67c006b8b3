// The line of a display file as text: decimal numbers with a space between two, and a newline at the end.
#![tactic(auto)]

ghost use Rattle.std.specs.Prelude.{◌≡◌, ◌++◌, ◌+◌, ◌≤◌, nat_abs, length, take, drop};
ghost use Rattle.io.specs.Counts.{IsPrefixLen};
ghost use Rattle.arrayvec.specs.ArrayString.{array_string_len};
ghost use Rattle.definition.specs.Plot.{text as spelled, plot_text};
ghost use Rattle.line.specs.Numbers.{numbers};

use arrayvec::ArrayString;
use definition::Units;
use itoa::{Buffer, Integer};
use line::Line;

// A coordinate without its sign. No line needs it, as itoa prints the sign; it was public with this promise.
pub fn size(u: Units) -> u64
    ensures { result ≡ nat_abs u.0 }
{
    u64::from(u.0.unsigned_abs())
}

// A number, and what stands after it.
fn push<N: Integer>(text: &mut ArrayString<160>, n: N, after: &str)
    requires { array_string_len text.old + N.MAX_STR_LEN + length after.now ≤ 160 }
    ensures bytes { text.new.bytes ≡ text.old.bytes ++ (N.text n ++ after.now) }
    ensures upper_bound { array_string_len text.new ≤ array_string_len text.old + N.MAX_STR_LEN + length after.now }
{
    let mut figures = Buffer::new();
    text.push_str(figures.format(n));
    text.push_str(after);
}

fn text_of_line(l: Line) -> ArrayString<160>
    ensures { result.bytes ≡ spelled (numbers l) }
{
    let mut text = ArrayString::new();
    push(&mut text, l.answer, " ");
    push(&mut text, l.steps, " ");
    push(&mut text, l.words, " ");
    push(&mut text, l.stores, " ");
    push(&mut text, l.counter, " ");
    push(&mut text, l.x.0, " ");
    push(&mut text, l.y.0, "\n");
    text
}

// What `plot` writes for the bytes that it reads, put into a text that has room for every line. Leaves the rest of the text, and answers how many bytes it is:
// the number and no slice, as its clauses are about the whole text. No Display: what `write!` promises it promises on Ok alone.
pub fn text_of(bytes: &[u8], text: &mut [u8; 160]) -> usize
    ensures prefix_len { IsPrefixLen result text.new }
    ensures text_after { take result text.new ≡ plot_text bytes.now }
    ensures text_unchanged { drop result text.new ≡ drop result text.old }
{
    let line = text_of_line(line::line_of(bytes));
    text[..line.len()].copy_from_slice(line.as_bytes());
    line.len()
}
