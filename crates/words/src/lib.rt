// The words: from a first word and the mode to the instruction, the second words of modes 2 and 3, and what a word is refused for.
#![tactic(auto)]

ghost use Rattle.std.specs.Prelude.{ℕ, ◌≡◌};
ghost use Rattle.definition.specs.Choice.{first_of};
ghost use Rattle.definition.specs.Refusal.{answer_of};
ghost use Rattle.definition.specs.Words.{bits, sets_mode, not_built, order, item, decode, short_x, short_y, long, coordinate, first_code, second_code, is_code, first_refusals, second_refusals};

use definition::{
    IncrementBits, Instruction, Item, ModeBits, Order, Refusal, StopBits, Units, WriteBits,
};

// A mode is a number here as in the machine, which may have any: the clauses are about any. A field of a word is cast by `as` below, as it fits by its bits.
pub const NO_MODE: u8 = 255;

const CHARACTERS: u8 = 0;

// In mode 0 bit 14 belongs to the second code, and every character is lit.
#[tactic(auto, unfolding(definition::specs::Words::decode))]
pub fn decode(mode: u8, word: u16) -> Instruction
    ensures { result ≡ decode mode word }
{
    if word / 32768 % 2 == 1 {
        return Instruction::Does(order(word));
    }
    Instruction::Draws {
        lit: mode == CHARACTERS || word / 16384 % 2 == 1,
        item: item(mode, word),
    }
}

// A code that is not built has no order of its own and reads as 15 does: first_refusal stops it first.
#[tactic(auto, unfolding(definition::specs::Words::order))]
fn order(word: u16) -> Order
    ensures { result ≡ order word }
{
    let code = word / 2048 % 16;
    if sets_mode(code) {
        return Order::SetMode(ModeBits {
            mode: code as u8,
            sets: word / 1024 % 2 == 1,
            value: (word / 256 % 4) as u8,
        });
    }
    match code {
        12 => Order::Jump,
        13 => Order::NoOp,
        14 => Order::StatusA(StopBits {
            loads: word / 512 % 2 == 1,
            latch: word / 256 % 2 == 1,
            stops: word / 1024 % 2 == 1,
        }),
        _ => {
            if word / 1024 % 2 == 1 {
                return Order::StatusC(WriteBits {
                    channel: (word / 256 % 4) as u8,
                    write: word / 16 % 2 == 1,
                });
            }
            Order::Increment(IncrementBits {
                sets: word / 64 % 2 == 1,
                increment: (word % 64) as u8,
            })
        }
    }
}

#[tactic(auto, unfolding(definition::specs::Words::sets_mode))]
fn sets_mode(code: u16) -> bool
    ensures { result ≡ sets_mode code }
{
    code <= 6
}

// A number that is no mode reads as mode 6 does.
#[tactic(auto, unfolding(definition::specs::Words::item))]
fn item(mode: u8, word: u16) -> Item
    ensures { result ≡ item mode word }
{
    match mode {
        CHARACTERS => Item::Characters {
            first: first_code(word) as u8,
            second: second_code(word) as u8,
        },
        1 => Item::ShortVector {
            x: short_x(word),
            y: short_y(word),
        },
        2 => Item::LongVector { x: long(word) },
        3 => Item::AbsolutePoint {
            x: coordinate(word),
        },
        4 => Item::GraphX {
            x: coordinate(word),
        },
        5 => Item::GraphY {
            y: coordinate(word),
        },
        _ => Item::RelativePoint {
            x: short_x(word),
            y: short_y(word),
        },
    }
}

// The move along X stands seven bits above that along Y.
fn short_x(word: u16) -> Units
    ensures { result ≡ short_x word }
{
    short_y(word / 128)
}

fn short_y(word: u16) -> Units
    ensures { result ≡ short_y word }
{
    units::move_of(word / 64 % 2 == 1, word % 64)
}

// The move in a word of a long vector, its first or its second.
pub fn long(word: u16) -> Units
    ensures { result ≡ long word }
{
    units::move_of(word / 8192 % 2 == 1, word % 1024)
}

// The coordinate in a word of an absolute point, its first or its second, or of a graph.
pub fn coordinate(word: u16) -> Units
    ensures { result ≡ coordinate word }
{
    Units(i32::from(word % 1024))
}

// The two characters of a word, the low one first.
fn first_code(word: u16) -> u16
    ensures { result ≡ first_code word }
{
    word % 128
}

fn second_code(word: u16) -> u16
    ensures { result ≡ second_code word }
{
    first_code(word / 256)
}

// What a first word is refused with, by its bit 15.
pub fn first_refusal(mode: u8, word: u16) -> Result<(), Refusal>
    ensures { answer_of result ≡ first_of (first_refusals mode word) }
{
    if word / 32768 % 2 == 1 {
        return order_refusal(word);
    }
    item_refusal(mode, word)
}

// For a word with bit 15 set, in every mode.
#[tactic(auto, unfolding(definition::specs::Words::first_refusals, definition::specs::Choice::first_of))]
fn order_refusal(word: u16) -> Result<(), Refusal>
    requires { bits 15 15 word ≡ 1 }
    ensures { (mode : ℕ) → answer_of result ≡ first_of (first_refusals mode word) }
{
    if not_built(word / 2048 % 16) {
        return Err(Refusal::NotBuilt);
    }
    Ok(())
}

// For a word with bit 15 clear.
#[tactic(auto, unfolding(definition::specs::Words::first_refusals, definition::specs::Choice::first_of))]
fn item_refusal(mode: u8, word: u16) -> Result<(), Refusal>
    requires { bits 15 15 word ≡ 1 → ⊥ }
    ensures { answer_of result ≡ first_of (first_refusals mode word) }
{
    if mode == NO_MODE {
        return Err(Refusal::NoModeSet);
    }
    if mode == CHARACTERS && !(is_code(first_code(word)) && is_code(second_code(word))) {
        return Err(Refusal::BadCharacter);
    }
    Ok(())
}

// Whether a set has a cell for it.
#[tactic(auto, unfolding(definition::specs::Words::is_code))]
fn is_code(code: u16) -> bool
    ensures { result ≡ is_code code }
{
    (32..=126).contains(&code)
}

#[tactic(auto, unfolding(definition::specs::Words::not_built))]
fn not_built(code: u16) -> bool
    ensures { result ≡ not_built code }
{
    (7..=11).contains(&code)
}

// For the second word of a long vector or an absolute point.
#[tactic(auto, unfolding(definition::specs::Words::second_refusals, definition::specs::Choice::first_of))]
pub fn second_refusal(second: u16) -> Result<(), Refusal>
    ensures { answer_of result ≡ first_of (second_refusals second) }
{
    if second / 32768 % 2 == 1 {
        return Err(Refusal::SecondWord);
    }
    Ok(())
}
