// The display file that an argument of a program names.
#![tactic(auto)]

ghost use Rattle.std.specs.Prelude.{◌≡◌, ◌≤◌, length, take, IfSome};
ghost use Rattle.io.specs.Counts.{IsPrefixLen};
ghost use Rattle.std.specs.Io.KnownBytes.{Consumes};

use std::env::FillError;
use std::fs;
use std::io::{Input, Read};
use std::rt::{Env, Files};

// One byte more than an input may have, so that a longer one is seen to be so.
pub const ROOM: usize = 65537;

// As long as a path may be, with the byte that ends it.
pub const NAME_ROOM: usize = 4096;

// How many arguments the program was started with, its own name among them.
pub fn argument_count(rt: &impl Env) -> usize {
    for i in 0..usize::MAX {
        if matches!(rt.arg(i, &mut []), Err(FillError::NotPresent)) {
            return i;
        }
    }
    usize::MAX
}

// An argument, put at the start of the bytes: empty where it is missing or longer than they are.
pub fn take_argument<'a>(rt: &impl Env, i: usize, name: &'a mut [u8]) -> &'a [u8]
    ensures { length result.now ≤ length name.old }
{
    match rt.arg(i, name) {
        Ok(length) => &name[..length],
        Err(_) => &[],
    }
}

// Reads until the bytes are full, the input ends or a read fails, and answers how many it put at their start. No `for`: a read may bring any number of bytes.
// The number and no slice: its clauses are about the whole list.
pub fn read_full<R: Read>(from: &mut R, bytes: &mut [u8]) -> usize
    ensures prefix_len { IsPrefixLen result bytes.new }
    ensures taken { Consumes (R.remaining from.old) (R.remaining from.new) (take result bytes.new) }
{
    let mut done = 0;
    while done < bytes.len() {
        match from.read(&mut bytes[done..]) {
            Ok(0) | Err(_) => return done,
            Ok(n) => done += n,
        }
    }
    done
}

fn is_dash(name: &[u8]) -> bool {
    name == b"-".as_slice()
}

// Where less came than there is room for, the file ended or a read failed, as that of a folder does. One more read tells which. What was taken of a file
// that was read is its first 65,537 bytes.
fn take<'a, R: Read>(from: &mut R, bytes: &'a mut [u8; ROOM]) -> Option<&'a [u8]>
    ensures bound { IfSome result (λ taken. length taken.now ≤ 65537) }
    ensures taken { IfSome result (λ taken. IfSome (R.remaining from.old) (λ file. taken.now ≡ take 65537 file)) }
{
    let length = read_full(from, bytes);
    let taken = &bytes[..length];
    if length == ROOM {
        return Some(taken);
    }
    let mut more = [0u8; 1];
    match from.read(&mut more) {
        Ok(0) => Some(taken),
        _ => None,
    }
}

// A file is opened by a name that is UTF-8, so one with another name is not found.
fn open<R: Files>(rt: &R, name: &[u8]) -> Option<R::File> {
    let path = str::from_utf8(name).ok()?;
    fs::open(rt, path).ok()
}

// The file that an argument names, put at the start of the bytes: to its end, or as far as there is room, and none where it was not read. The argument `-`
// is standard input. One that is missing or too long for a path is empty here, and no file has an empty name.
pub fn read<'a>(
    rt: &(impl Env + Files + Input),
    argument: usize,
    bytes: &'a mut [u8; ROOM],
) -> Option<&'a [u8]>
    ensures { IfSome result (λ taken. length taken.now ≤ 65537) }
{
    let mut name = [0u8; NAME_ROOM];
    let name = take_argument(rt, argument, &mut name);
    if is_dash(name) {
        return take(&mut rt.reader(), bytes);
    }
    take(&mut open(rt, name)?, bytes)
}
