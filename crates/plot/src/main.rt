// plot: writes the line of the display file on standard input.
// plot FILE..: writes a line for each file, which is the file's own or `unread`. A FILE of `-` is standard input.
#![tactic(auto)]

ghost use Rattle.std.specs.Prelude.{OnOk};
ghost use Rattle.std.specs.Io.KnownBytes.{Appends};
ghost use Rattle.definition.specs.Plot.{plot_text};

use std::io;
use std::io::{Input, Write};
use std::rt::{Env, Files};

fn write_line<W: Write>(to: &mut W, bytes: &[u8]) -> io::Result<()>
    ensures { OnOk result (Appends (W.contents to.old) (W.contents to.new) (plot_text bytes.now)) }
{
    let mut text = [0u8; 160];
    let length = text::text_of(bytes, &mut text);
    to.write_all(&text[..length])
}

fn plot_file(
    rt: &(impl Env + Files + Input),
    to: &mut impl Write,
    argument: usize,
) -> io::Result<()> {
    let mut bytes = [0u8; input::ROOM];
    match input::read(rt, argument, &mut bytes) {
        Some(file) => write_line(to, file),
        None => to.write_all(b"unread\n"),
    }
}

fn plot_files(
    rt: &(impl Env + Files + Input),
    to: &mut impl Write,
    count: usize,
) -> io::Result<()> {
    for i in 1..count {
        plot_file(rt, to, i)?;
    }
    Ok(())
}

// Stops where a line was not written, and says nothing of it.
fn main(rt: HostRuntime) {
    let mut out = io::writer(&rt);
    let count = input::argument_count(&rt);
    if 1 < count {
        let _ = plot_files(&rt, &mut out, count);
        return;
    }
    let mut bytes = [0u8; input::ROOM];
    let length = input::read_full(&mut rt.reader(), &mut bytes);
    let _ = write_line(&mut out, &bytes[..length]);
}
