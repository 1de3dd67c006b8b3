// Numbers in lists of bytes, low byte first: read from one, written to another. Past its end a list reads 0 and takes nothing.
// A signed number stands there with 2^31 added. And the digest of a list.
#![tactic(auto)]

ghost use Rattle.std.specs.Prelude.{◌≡◌, length, IfSome};

use std::io::Read;

// The N bytes from a place on.
fn bytes_at<const N: usize>(bytes: &[u8], i: usize) -> [u8; N] {
    let mut taken = [0; N];
    for (to, from) in taken.iter_mut().zip(bytes.iter().skip(i)) {
        *to = *from;
    }
    taken
}

pub fn byte_at(bytes: &[u8], i: usize) -> u8 {
    bytes.get(i).copied().unwrap_or(0)
}

pub fn word_at(bytes: &[u8], i: usize) -> u16 {
    u16::from_le_bytes(bytes_at(bytes, i))
}

pub fn long_at(bytes: &[u8], i: usize) -> u32 {
    u32::from_le_bytes(bytes_at(bytes, i))
}

pub fn signed_at(bytes: &[u8], i: usize) -> i32 {
    long_at(bytes, i).wrapping_sub(1 << 31).cast_signed()
}

// The next n words that a reader gives, taken by way of a list of bytes: none where there is no room for them, and where fewer come.
pub fn read_words<'a>(
    from: &mut impl Read,
    n: usize,
    bytes: &mut [u8],
    words: &'a mut [u16],
) -> Option<&'a [u16]>
    ensures { IfSome result (λ taken. length taken.now ≡ n) }
{
    let bytes = bytes.get_mut(..n.checked_mul(2)?)?;
    let words = words.get_mut(..n)?;
    from.read_exact(bytes).ok()?;
    for (word, pair) in words.iter_mut().zip(bytes.chunks_exact(2)) {
        *word = word_at(pair, 0);
    }
    Some(words)
}

fn put_bytes(record: &mut [u8], i: usize, bytes: &[u8]) {
    for (to, from) in record.iter_mut().skip(i).zip(bytes) {
        *to = *from;
    }
}

pub fn put(record: &mut [u8], i: usize, v: u8) {
    put_bytes(record, i, &[v]);
}

pub fn put_word(record: &mut [u8], i: usize, v: u16) {
    put_bytes(record, i, &v.to_le_bytes());
}

pub fn put_long(record: &mut [u8], i: usize, v: u32) {
    put_bytes(record, i, &v.to_le_bytes());
}

// As second/ writes a signed number: raised by 2^31, so that every record is of bytes alone.
pub fn put_signed(record: &mut [u8], i: usize, z: i32) {
    put_long(record, i, z.cast_unsigned().wrapping_add(1 << 31));
}

pub fn digest(bytes: &[u8]) -> u32 {
    let mut sum: u64 = 1;
    for b in bytes {
        sum = (sum * 2654435761 + u64::from(*b) + 1) % 4294967291;
    }
    sum as u32
}
