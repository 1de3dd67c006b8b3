// The nouns of document 01. Its rules are the definitions of specs/.
#![tactic(auto)]

ghost use Rattle.std.specs.Prelude.{◌≡◌, ◌+◌, ◌^◌, ◌<◌};
ghost use Rattle.definition.specs.File.{number_of};
ghost use Rattle.definition.specs.Refusal.{refusal_number};
ghost use Rattle.definition.specs.Run.{summed};

use std::ops::Add;

// A count of display units and a count of pixels: two kinds, and neither passes for the other.
#[derive(Clone, Copy)]
pub struct Units(pub i32);

#[derive(Clone, Copy)]
pub struct Pixels(pub i32);

// A pixel by its two coordinates: (0, 0) is the lower left one, y grows upward.
#[derive(Clone, Copy)]
pub struct Pixel {
    pub x: Pixels,
    pub y: Pixels,
}

// Numbers where document 01 gives a range, so that a machine out of range can be handed over, and refused by 16. No mode is 255. The largest
// fields come first, so that there is no gap between two of them: a copy over one is slow (docs/PERFORMANCE.md).
#[derive(Clone, Copy)]
pub struct Machine {
    pub x: Units,
    pub y: Units,
    pub counter: u16,
    pub mode: u8,
    pub value: u8,
    pub write: bool,
    pub latch: bool,
    pub increment: u8,
    pub status: u8,
}

// What a store writes with: of a machine, all that its stores depend on.
#[derive(Clone, Copy)]
pub struct Ink {
    pub value: u8,
}

// Why a call or an instruction is refused. Each discriminant is the number that a call answers, or that a step sets as the status.
#[derive(Clone, Copy, PartialEq, Eq, Debug)]
pub enum Refusal {
    // The image has another number of bytes than 65,536.
    BadImage = 11,
    // The file is shorter than two words, or than its header.
    ShortFile = 12,
    // Word 0 is not 1.
    BadTag = 13,
    // The number of segments is not 1 to 8.
    BadCount = 14,
    // A segment starts in the header, has more than 4,096 words, or ends past the file.
    BadSegment = 15,
    // A field of the machine is out of its range.
    BadMachine = 16,
    // The budget is above 1,000,000 steps.
    BadBudget = 17,
    // The lent set has neither 0 bytes nor 760.
    BadSet = 18,
    // The bytes that were given are no words: their number is odd, or there are more than 65,536.
    BadInput = 19,
    // A fetch at an odd address.
    OddAddress = 21,
    // A fetch from a segment that is not in the file.
    NoSegment = 22,
    // A fetch past the end of a segment.
    NoPlace = 23,
    // A code that this processor does not know.
    NotBuilt = 24,
    // A data word before any mode was set.
    NoModeSet = 25,
    // Bit 15 is set in the second word of a long vector or an absolute point.
    SecondWord = 26,
    // X or Y would leave -4,096 to 4,095.
    OutOfRange = 27,
    // The machine's status is not 0.
    NotRunning = 28,
    // The pixel is outside the picture.
    Outside = 31,
    // A character's code is not 32 to 126.
    BadCharacter = 32,
}

impl From<Refusal> for u8 {
    ghost from_gives = { λ why number. number ≡ refusal_number why };

    fn from(why: Refusal) -> u8 {
        why as u8
    }
}

// Why an address gives no word.
#[derive(Clone, Copy, PartialEq, Eq, Debug)]
pub enum Unfetched {
    Odd,
    NoSegment,
    NoPlace,
}

impl From<Unfetched> for Refusal {
    ghost from_gives = { λ why refusal. refusal_number refusal ≡ number_of why };

    fn from(why: Unfetched) -> Refusal {
        match why {
            Unfetched::Odd => Refusal::OddAddress,
            Unfetched::NoSegment => Refusal::NoSegment,
            Unfetched::NoPlace => Refusal::NoPlace,
        }
    }
}

// The bits of a word with bit 15 set, as they stand there: which is set, and to what. A flag beside a value and no Option: the definition has the value where
// the flag is off too, and `words::decode` promises it.
#[derive(Clone, Copy)]
pub struct ModeBits {
    pub mode: u8,
    pub sets: bool,
    pub value: u8,
}

#[derive(Clone, Copy)]
pub struct StopBits {
    pub loads: bool,
    pub latch: bool,
    pub stops: bool,
}

#[derive(Clone, Copy)]
pub struct IncrementBits {
    pub sets: bool,
    pub increment: u8,
}

#[derive(Clone, Copy)]
pub struct WriteBits {
    pub channel: u8,
    pub write: bool,
}

// A word with bit 15 set.
#[derive(Clone, Copy)]
pub enum Order {
    SetMode(ModeBits),
    Jump,
    NoOp,
    StatusA(StopBits),
    Increment(IncrementBits),
    StatusC(WriteBits),
}

// A word with bit 15 clear, by the mode: moves signed, coordinates and the codes of characters as they stand. What a second word holds is not in it.
#[derive(Clone, Copy)]
pub enum Item {
    ShortVector { x: Units, y: Units },
    LongVector { x: Units },
    AbsolutePoint { x: Units },
    GraphX { x: Units },
    GraphY { y: Units },
    RelativePoint { x: Units, y: Units },
    Characters { first: u8, second: u8 },
}

#[derive(Clone, Copy)]
pub enum Instruction {
    Does(Order),
    Draws { lit: bool, item: Item },
}

// What a run counts, over completed steps.
#[derive(Clone, Copy)]
pub struct Counts {
    pub steps: u32,
    pub words: u32,
    pub stores: u32,
}

impl Counts {
    pub const NOTHING: Counts = Counts {
        steps: 0,
        words: 0,
        stores: 0,
    };
}

impl Add for Counts {
    type Output = Counts;

    ghost can_add = { λ a b. (a.steps + b.steps < 2 ^ 32) × (a.words + b.words < 2 ^ 32) × (a.stores + b.stores < 2 ^ 32) };

    ghost add_gives = { λ a b sum. sum ≡ summed a b };

    fn add(self, more: Counts) -> Counts {
        Counts {
            steps: self.steps + more.steps,
            words: self.words + more.words,
            stores: self.stores + more.stores,
        }
    }
}

// What a run answers, beside the image. The answer is the number of a refusal or the last status, as a machine has it, and so no Result.
#[derive(Clone, Copy)]
pub struct Ran {
    pub answer: u8,
    pub counts: Counts,
    pub machine: Machine,
}
