// The display file: the check of its header, and the fetch of a word.
#![tactic(auto)]

ghost use Rattle.std.specs.Prelude.{◌≡◌, ◌<◌, get_or, length};
ghost use Rattle.definition.specs.File.{segments, offset, size, keeps, keep_below, fetch, number_in};
ghost use Rattle.definition.specs.Refusal.{answer_of};
ghost use Rattle.definition.specs.Calls.{check_call};

use definition::{Refusal, Unfetched};

// The number of words that a segment has at most.
const SEGMENT: usize = 4096;

// Past its end a file reads 0, as in the definition: no caller has to show that a word is there.
fn word_at(words: &[u16], i: usize) -> usize
    ensures { (result ≡ get_or words.now i 0) × (result < 65536) }
{
    words.get(i).copied().map_or(0, usize::from)
}

// A segment starts past the header, is no longer than 4,096 words, and ends within the file.
#[tactic(auto, unfolding(definition::specs::File::keeps))]
fn segment_keeps(words: &[u16], header: usize, segment: usize) -> bool
    requires { segment < 65536 }
    ensures { result ≡ keeps header (length words.now) (offset words.now segment) (size words.now segment) }
{
    let offset = word_at(words, 2 + 2 * segment);
    let size = word_at(words, 3 + 2 * segment);
    header <= offset && size <= SEGMENT && offset + size <= words.len()
}

// From the last segment down: those above the one at hand keep the rule. A `for` and no `all`: tried, and its proof did not close.
#[tactic(auto, using(crate::proofs::FileLaws::keep_next), unfolding(definition::specs::File::keep_below))]
fn segments_keep(words: &[u16]) -> bool
    ensures { result ≡ keep_below words.now (segments words.now) }
{
    let segments = word_at(words, 1);
    let header = 2 + 2 * segments;
    for segment in (0..segments).rev() {
        if !segment_keeps(words, header, segment) {
            return false;
        }
    }
    true
}

#[tactic(auto, unfolding(definition::specs::Calls::check_call, definition::specs::File::file_doors, definition::specs::File::head_doors, definition::specs::File::segment_doors, definition::specs::Choice::first_of))]
pub fn check(words: &[u16]) -> Result<(), Refusal>
    ensures { answer_of result ≡ check_call words.now }
{
    if words.len() < 2 {
        return Err(Refusal::ShortFile);
    }
    if word_at(words, 0) != 1 {
        return Err(Refusal::BadTag);
    }
    let segments = word_at(words, 1);
    if !(1..=8).contains(&segments) {
        return Err(Refusal::BadCount);
    }
    if words.len() < 2 + 2 * segments {
        return Err(Refusal::ShortFile);
    }
    if !segments_keep(words) {
        return Err(Refusal::BadSegment);
    }
    Ok(())
}

#[tactic(auto, unfolding(definition::specs::File::fetch))]
pub fn fetch(words: &[u16], address: u16) -> Result<u16, Unfetched>
    ensures { result ≡ fetch words.now address }
{
    let a = usize::from(address);
    if a % 2 != 0 {
        return Err(Unfetched::Odd);
    }
    let segment = a / 2 / SEGMENT;
    let place = a / 2 % SEGMENT;
    if word_at(words, 1) <= segment {
        return Err(Unfetched::NoSegment);
    }
    if word_at(words, 3 + 2 * segment) <= place {
        return Err(Unfetched::NoPlace);
    }
    let offset = word_at(words, 2 + 2 * segment);
    Ok(words.get(offset + place).copied().unwrap_or(0))
}

// The number of what a fetch answered: 0 where it is a word.
pub fn number_in(got: Result<u16, Unfetched>) -> u8
    ensures { result ≡ number_in got }
{
    match got {
        Ok(_) => 0,
        Err(why) => u8::from(Refusal::from(why)),
    }
}
