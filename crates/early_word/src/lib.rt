// The word of 64 bits that marks the numbers of held messages: what stands at its low end, a bit tested and set, and
// its low bits dropped. Its lowest bit stands for the number after the expected one.
#![tactic(auto, using(crate::proofs::Rules::words))]

ghost use Rattle.std.specs.Prelude.{◌≡◌, eqb};
ghost use Rattle.early_word.specs.Word.{bit, run, lowest, past, marked};

use wire::kinds::{MessageCount, MessagePlace};

// The bits of a word.
const BITS: u16 = 64;

#[derive(Clone, Copy, Debug, PartialEq, Eq)]
pub struct Held(pub u64);

impl Held {
    pub const NOTHING: Held = Held(0);

    pub fn is_nothing(self) -> bool
        ensures { result ≡ eqb self.0 0 }
    {
        self.0 == 0
    }

    // How many numbers are held without a gap from the lowest bit on: the trailing zeros of the complemented word.
    pub fn run(self) -> MessageCount
        ensures { result.0 ≡ run self.0 }
    {
        MessageCount(u64::trailing_zeros(!self.0) as u16)
    }

    // The place of the lowest number that is held, and so how many lie below it that aren't; 64 where there is none.
    pub fn lowest(self) -> MessageCount
        ensures { result.0 ≡ lowest self.0 }
    {
        MessageCount(u64::trailing_zeros(self.0) as u16)
    }

    // Whether the number at a place is held; none is from 64 on.
    pub fn has(self, place: MessagePlace) -> bool
        ensures { result ≡ bit self.0 place.0 }
    {
        if place.0 < BITS {
            return (self.0 >> place.0) % 2 == 1;
        }
        false
    }

    // The word without its low bits. A shift by 64 or more is not one instruction's, so it is told apart.
    pub fn past(self, count: MessageCount) -> Held
        ensures { result.0 ≡ past self.0 count.0 }
    {
        if count.0 < BITS {
            return Held(self.0 >> count.0);
        }
        Held::NOTHING
    }

    // The word with the number at a place held too; a place from 64 on marks none.
    pub fn marked(self, place: MessagePlace) -> Held
        ensures { result.0 ≡ marked self.0 place.0 }
    {
        if place.0 < BITS {
            return Held(self.0 | (1 << place.0));
        }
        self
    }
}
