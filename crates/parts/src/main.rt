// Reads cases for the parts from standard input, and writes a record for each: second makes the cases and knows the records.
// tests/parts.sh compares many; stdin and stdout here are a few, those of `second parts 3 DIR 60`.
//
// A case is a head of 16 bytes, which a file's words follow. Byte 0 of the head is the kind. Numbers stand low byte first.
// A number marked i is signed, in 32 bits, with 2^31 added. Bytes without a name are 0.
// 1 units: 1 minus; 2 size, 16 bits; 4 X i; 8 Y i; 12 move i.
//   Record of 24: 0 pixels of X i; 4 and 8 pixel of (X, Y) i; 12 size with its sign i; 16 X after the move i, 20 is 1, or both
//   0 where it is out of range; 21 is 1 where Y as a pixel is an index below 512, and then 22 the index, 16 bits.
// 2 image: 1 what to do: 0 read, 1 store, 2 plot, 3 clear; 2 value; 4 column, 6 row, 16 bits each, to read and store;
//   8 X i, 12 Y i, to plot. Record of 4: the digit that was read, or the number of stores that a plot counts.
// 3 file: 2 number of words, 16 bits; 4 six addresses, 16 bits each; the words after the head.
//   Record of 19: 0 answer of the check; where that is 0, from 1 on for each address the number of its refusal and its word, 16 bits.
// 4 word: 2 the word. Record of 113: an account of 13 in each of the modes 1 to 6 and none; 91 move of a long vector i;
//   95 coordinate i; 99 refusal as a second word; 100 the account in mode 0.
//   Account: 0 refusal, and where it is not 0 nothing else; 1 kind, from 1 on: set mode, jump, no-op, status A, increment,
//   status C, then the items of the modes 1 to 6 and 0; 5 X i, 9 Y i, where there is none the number 0, and in mode 0 the two codes.
//   Of an item: 2 lit.
//   Of an order: 2 whether it sets something (status C: in channel 0), 3 to what, if so; 4 the mode, or whether it stops.
// 5 vector: 2 value; 4, 6 X and Y of the first pixel, 8, 10 of the last, with 2,048 added. Record of 4: the number of stores.
// 6 look: 1 whether to fill; 2 with which byte. Record of 4: the digest of the image before.
#![tactic(auto)]

ghost use Rattle.std.specs.Prelude.{◌<◌};
ghost use Rattle.vector.specs.Raised.{Reached, Reaches};

use definition::{Ink, Pixel, Pixels, Units};
use image::Brush;
use std::io;
use std::io::{Input, Read};

// ---- one record
fn write_long(rt: &impl Print, v: u32) -> io::Result<()> {
    rt.write_all(&v.to_le_bytes())
}

// ---- units
fn units_case(rt: &impl Print, head: &[u8]) -> io::Result<()> {
    let mut record = [0u8; 24];
    let x = records::signed_at(head, 4);
    let y = records::signed_at(head, 8);
    records::put_signed(&mut record, 0, units::pixels_of(Units(x)).0);
    let p = units::pixel_at(Units(x), Units(y));
    records::put_signed(&mut record, 4, p.x.0);
    records::put_signed(&mut record, 8, p.y.0);
    records::put_signed(
        &mut record,
        12,
        units::move_of(records::byte_at(head, 1) == 1, records::word_at(head, 2)).0,
    );
    accounts::put_moved(
        &mut record,
        units::moved_to(Units(x), Units(records::signed_at(head, 12))),
    );
    accounts::put_index(&mut record, units::index_in(512, p.y));
    rt.write_all(&record)
}

// ---- image
fn brush_of(head: &[u8]) -> Brush {
    let value = records::byte_at(head, 2) % 4;
    Brush { ink: Ink { value } }
}

fn image_case(rt: &impl Print, head: &[u8], image: &mut [u8; 65536]) -> io::Result<()> {
    let brush = brush_of(head);
    let x = usize::from(records::word_at(head, 4) % 512);
    let y = usize::from(records::word_at(head, 6) % 512);
    let p = Pixel {
        x: Pixels(records::signed_at(head, 8)),
        y: Pixels(records::signed_at(head, 12)),
    };
    let answer = match records::byte_at(head, 1) {
        0 => u32::from(image::read(image, x, y)),
        1 => {
            image::store(image, x, y, brush);
            0
        }
        2 => image::plot(image, p, brush),
        _ => {
            image::clear(image);
            0
        }
    };
    write_long(rt, answer)
}

fn look_case(rt: &impl Print, head: &[u8], image: &mut [u8; 65536]) -> io::Result<()> {
    let sum = records::digest(image);
    if records::byte_at(head, 1) == 1 {
        image.fill(records::byte_at(head, 2));
    }
    write_long(rt, sum)
}

// ---- file
fn file_case(rt: &impl Print, head: &[u8], file: &[u16]) -> io::Result<()> {
    let mut record = [0u8; 19];
    match file::check(file) {
        Err(why) => records::put(&mut record, 0, u8::from(why)),
        Ok(()) => {
            for i in 0..6 {
                let fetched = file::fetch(file, records::word_at(head, 4 + 2 * i));
                accounts::put_fetched(&mut record, 1 + 3 * i, fetched);
            }
        }
    }
    rt.write_all(&record)
}

// ---- words
// Where each mode's account stands. A mode is a number, as `words::decode` takes any.
const ACCOUNTS: [(usize, u8); 8] = [
    (0, 1),
    (13, 2),
    (26, 3),
    (39, 4),
    (52, 5),
    (65, 6),
    (78, 255),
    (100, 0),
];

fn word_case(rt: &impl Print, head: &[u8]) -> io::Result<()> {
    let word = records::word_at(head, 2);
    let mut record = [0u8; 113];
    for (place, mode) in ACCOUNTS {
        accounts::put_account(&mut record, place, mode, word);
    }
    records::put_signed(&mut record, 91, words::long(word).0);
    records::put_signed(&mut record, 95, words::coordinate(word).0);
    if let Err(why) = words::second_refusal(word) {
        records::put(&mut record, 99, u8::from(why));
    }
    rt.write_all(&record)
}

// ---- vector
fn pixels_of(n: u16) -> Pixels
    requires { n < 4096 }
    ensures { Reached result }
{
    Pixels(i32::from(n) - 2048)
}

fn pixel_of(x: u16, y: u16) -> Pixel
    ensures { Reaches result }
{
    Pixel {
        x: pixels_of(x % 4096),
        y: pixels_of(y % 4096),
    }
}

fn vector_case(rt: &impl Print, head: &[u8], image: &mut [u8; 65536]) -> io::Result<()> {
    let a = pixel_of(records::word_at(head, 4), records::word_at(head, 6));
    let b = pixel_of(records::word_at(head, 8), records::word_at(head, 10));
    write_long(rt, vector::draw(image, a, b, brush_of(head)))
}

// ---- one case, and all; none at the end of the input, where it is no case, and where the record was not written
// The kind of a case is a byte of its record.
fn one_case(
    rt: &impl Print,
    from: &mut impl Read,
    image: &mut [u8; 65536],
    body: &mut [u8; 65536],
    words: &mut [u16; 32768],
) -> Option<()> {
    let mut head = [0u8; 16];
    from.read_exact(&mut head).ok()?;
    let written = match head[0] {
        1 => units_case(rt, &head),
        2 => image_case(rt, &head, image),
        3 => {
            let n = usize::from(records::word_at(&head, 2));
            file_case(rt, &head, records::read_words(from, n, body, words)?)
        }
        4 => word_case(rt, &head),
        5 => vector_case(rt, &head, image),
        6 => look_case(rt, &head, image),
        _ => return None,
    };
    written.ok()
}

// The loop of replay, over other buffers: a program of its own, as replay is.
fn main(rt: HostRuntime) {
    let mut from = rt.reader();
    let mut image = [0u8; 65536];
    let mut body = [0u8; 65536];
    let mut words = [0u16; 32768];
    for _ in 0..u64::MAX {
        if one_case(&rt, &mut from, &mut image, &mut body, &mut words).is_none() {
            return;
        }
    }
}
