// picture BUDGET SET [FILE OUT]..: draws each file by a run with that budget, and writes its screen to the new file OUT as a binary PGM. A FILE of `-` is
// standard input. Of each pair it writes a line: the answer; `unread`, and then it makes no OUT; or `unwritten`, where OUT could not be made, written
// whole or stored. SET is a file whose bytes are lent as the set of characters, or empty: then none is lent. Where it cannot be read the one line is `no set`.
#![tactic(auto)]

ghost use Rattle.std.specs.Prelude.{◌≤◌, length, IfSome};

use screen::PICTURE;
use std::fs::{OpenFile, OpenOptions};
use std::io;
use std::io::{Input, Write};
use std::rt::{Env, Files};

// ---- the budget
// The least that a run refuses, by 17. A larger budget, and what is no number, count as this one.
const REFUSED: u32 = 1000001;

// A number is of figures alone, without a sign.
fn number_of(figures: &[u8]) -> Option<u32> {
    if !figures.iter().all(|figure| figure.is_ascii_digit()) {
        return None;
    }
    str::from_utf8(figures).ok()?.parse().ok()
}

fn budget_of(figures: &[u8]) -> u32 {
    number_of(figures).unwrap_or(REFUSED).min(REFUSED)
}

// ---- one picture, and all
// A file with an error that only a close would show is no good either, so its bytes are stored first.
fn write_new(rt: &impl Files, path: &str, picture: &[u8; PICTURE]) -> io::Result<()> {
    let mut file = OpenOptions::new()
        .write(true)
        .create_new(true)
        .open(rt, path)?;
    file.write_all(picture)?;
    file.sync_all()
}

// Writes a picture to the new file that an argument names: none where not all of it is there.
fn save(rt: &(impl Env + Files), argument: usize, picture: &[u8; PICTURE]) -> Option<()> {
    let mut name = [0u8; input::NAME_ROOM];
    let path = str::from_utf8(input::take_argument(rt, argument, &mut name)).ok()?;
    write_new(rt, path, picture).ok()
}

fn draw(
    rt: &(impl Env + Files + Input + Print),
    file: usize,
    out: usize,
    budget: u32,
    set: &[u8],
) -> io::Result<()> {
    let mut bytes = [0u8; input::ROOM];
    let mut image = [0u8; 65536];
    let mut picture = [0u8; PICTURE];
    let Some(file) = input::read(rt, file, &mut bytes) else {
        return rt.write_all(b"unread\n");
    };
    let answer = screen::draw(file, &mut image, budget, set);
    screen::picture_of(&image, &mut picture);
    match save(rt, out, &picture) {
        Some(()) => println!(rt; "{answer}"),
        None => rt.write_all(b"unwritten\n"),
    }
}

// The first pair is arguments 3 and 4.
fn draw_all(
    rt: &(impl Env + Files + Input + Print),
    count: usize,
    budget: u32,
    set: &[u8],
) -> io::Result<()> {
    for pair in 1..count / 2 {
        draw(rt, 2 * pair + 1, 2 * pair + 2, budget, set)?;
    }
    Ok(())
}

// The set that argument 2 names, or an empty one where the argument is empty.
fn take_set<'a>(rt: &(impl Env + Files + Input), set: &'a mut [u8; input::ROOM]) -> Option<&'a [u8]>
    ensures { IfSome result (λ taken. length taken.now ≤ 65537) }
{
    let mut name = [0u8; input::NAME_ROOM];
    if input::take_argument(rt, 2, &mut name).is_empty() {
        return Some(b"");
    }
    input::read(rt, 2, set)
}

// Stops where a line was not written, and says nothing of it.
fn main(rt: HostRuntime) {
    let mut figures = [0u8; input::NAME_ROOM];
    let budget = budget_of(input::take_argument(&rt, 1, &mut figures));
    let mut set = [0u8; input::ROOM];
    let _ = match take_set(&rt, &mut set) {
        Some(set) => draw_all(&rt, input::argument_count(&rt), budget, set),
        None => rt.write_all(b"no set\n"),
    };
}
