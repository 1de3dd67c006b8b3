// Reads cases for the calls from standard input, and writes a line for each: second makes the cases and knows the lines.
// tests/replay.sh compares fresh ones; stdin and stdout here are those of `second replay 1 DIR`.
//
// A case is a head of 64 bytes, which the words of a file follow, two bytes each. Numbers stand low byte first. A number marked i
// is signed, in 32 bits, with 2^31 added.
//   0 kind: 1 check, 2 fresh, 3 start, 4 step, 5 run, 6 clear, 7 read_pixel
//   1 mode, 2 value, 3 write, 4 latch, 5 increment, 6 status, 8 counter (16 bits), 12 X i, 16 Y i: the machine; 7 is 0
//   10 the address to start at, 16 bits
//   20 the budget, 32 bits
//   24 X i, 28 Y i: the pixel to read
//   32 length of the image, 32 bits, at most 65,537; 36 its seed, 32 bits
//   40 number of words, 16 bits, at most 32,768
//   48 length of the lent set of characters, 16 bits, at most 1,024; 52 its seed, 32 bits
// The rest is 0, with a place for what is not built:
//   42 ones only, 43 shape, 44 saved counter, 32 bits
//   50 pressed; 56 X i, 60 Y i of a crosshair
// For each byte of the image a number, 0 at first, becomes 69,069 times itself and the seed, in 32 bits; the byte is its highest eight
// bits. With the seed 0 every byte is 0. The bytes of the set come from its seed in the same way.
//
// A line: answer, steps, words, stores, counter, X, Y, mode, value, write, latch, increment, status, the digit that was read, and the
// digest of the image after the call. A call that gives no answer, no count or no digit has 0 there, one that gives no machine has
// the machine of the case.
#![tactic(auto)]

use numbers::{HostMachine, HostRan};
use std::fmt::Display;
use std::io;
use std::io::{Input, Read};

// ---- the case
// Numbers, as the bytes of a case and the calls for C have them.
fn machine_of(head: &[u8]) -> HostMachine {
    HostMachine {
        x: records::signed_at(head, 12),
        y: records::signed_at(head, 16),
        counter: records::word_at(head, 8),
        mode: records::byte_at(head, 1),
        value: records::byte_at(head, 2),
        write: records::byte_at(head, 3),
        latch: records::byte_at(head, 4),
        increment: records::byte_at(head, 5),
        status: records::byte_at(head, 6),
    }
}

fn fill(image: &mut [u8], seed: u32) {
    let mut mixed = 0u32;
    for b in image {
        mixed = mixed.wrapping_mul(69069).wrapping_add(seed);
        *b = (mixed >> 24) as u8;
    }
}

// ---- the calls
fn uncounted(machine: HostMachine, answer: u8) -> HostRan {
    HostRan {
        machine,
        steps: 0,
        words: 0,
        stores: 0,
        answer,
    }
}

// And the digit that was read.
fn called(head: &[u8], file: &[u16], image: &mut [u8], set: &[u8]) -> (HostRan, u8) {
    let m = machine_of(head);
    let ran = match records::byte_at(head, 0) {
        1 => uncounted(m, host::roadparsnip_check(file)),
        2 => uncounted(host::roadparsnip_fresh(), 0),
        3 => started(m, records::word_at(head, 10)),
        4 => host::roadparsnip_step(file, m, image, set),
        5 => host::roadparsnip_run(file, m, image, records::long_at(head, 20), set),
        6 => uncounted(m, host::roadparsnip_clear(image)),
        _ => {
            let x = records::signed_at(head, 24);
            let y = records::signed_at(head, 28);
            let read = host::roadparsnip_read_pixel(image, x, y);
            return (uncounted(m, read.answer), read.digit);
        }
    };
    (ran, 0)
}

fn started(m: HostMachine, address: u16) -> HostRan {
    let started = host::roadparsnip_start(m, address);
    let machine = started.machine;
    uncounted(machine, started.answer)
}

// ---- the line
// A number that is not written is left out, and so is the space after it.
fn write_number(rt: &impl Print, n: impl Display + Copy) {
    let _ = print!(rt; "{n} ");
}

// Answers as its end was written.
fn write_line(rt: &impl Print, ran: HostRan, digit: u8, digest: u32) -> io::Result<()> {
    write_number(rt, ran.answer);
    write_number(rt, ran.steps);
    write_number(rt, ran.words);
    write_number(rt, ran.stores);
    let m = ran.machine;
    write_number(rt, m.counter);
    write_number(rt, m.x);
    write_number(rt, m.y);
    write_number(rt, m.mode);
    write_number(rt, m.value);
    write_number(rt, m.write);
    write_number(rt, m.latch);
    write_number(rt, m.increment);
    write_number(rt, m.status);
    write_number(rt, digit);
    println!(rt; "{digest}")
}

// ---- one case, and all; none at the end of the input, where a case is cut or too large, and where the end of a line was not written
fn one_case(
    rt: &impl Print,
    from: &mut impl Read,
    image: &mut [u8; 65537],
    body: &mut [u8; 65536],
    words: &mut [u16; 32768],
) -> Option<()> {
    let mut head = [0u8; 64];
    let mut set = [0u8; 1024];
    from.read_exact(&mut head).ok()?;
    let image = image.get_mut(..records::long_at(&head, 32) as usize)?;
    let n = usize::from(records::word_at(&head, 40));
    let file = records::read_words(from, n, body, words)?;
    let set = set.get_mut(..usize::from(records::word_at(&head, 48)))?;
    fill(image, records::long_at(&head, 36));
    fill(set, records::long_at(&head, 52));
    let (ran, digit) = called(&head, file, image, set);
    write_line(rt, ran, digit, records::digest(image)).ok()
}

fn main(rt: HostRuntime) {
    let mut from = rt.reader();
    let mut image = [0u8; 65537];
    let mut body = [0u8; 65536];
    let mut words = [0u16; 32768];
    for _ in 0..u64::MAX {
        if one_case(&rt, &mut from, &mut image, &mut body, &mut words).is_none() {
            return;
        }
    }
}
