// A message kept in its slot, and how far the expected number moves.
#![tactic(auto, using(crate::proofs::Rules::moves, crate::proofs::Rules::places, crate::proofs::Rules::stores))]

ghost use Rattle.std.specs.Prelude.{◌≡◌, true, ◌+◌, ◌-◌, ◌<◌, min, length};
ghost use Rattle.wire.specs.Bounds.{largest_count};
ghost use Rattle.early_holding.specs.Holding.{slot_of, lent, early, is_held, keeps, keep, keep_one, move_to};

use early_word::Held;
use receiver::receiver::Receiver;
use wire::kinds::{ByteOffset, COUNT_SIZE, MessageCount, MessagePlace, SequenceNumber};
use wire::output;

// How many slots there are, the bytes of one, and of all; and the bytes of all lengths, two each, the most significant
// first.
pub const SLOTS: MessageCount = MessageCount(64);

pub const SLOT_SIZE: usize = 1024;

pub const SLOT_BYTES: usize = 64 * SLOT_SIZE;

pub const LENGTH_BYTES: usize = 64 * COUNT_SIZE;

// The plain receiver, and the numbers that are held: the lowest bit stands for the number after the next.
#[derive(Clone, Copy, Debug, PartialEq, Eq)]
pub struct EarlyReceiver {
    pub base: Receiver,
    pub held: Held,
}

// The expected number and the held numbers, moved on.
#[derive(Clone, Copy, Debug, PartialEq, Eq)]
pub struct Moved {
    pub next: SequenceNumber,
    pub held: Held,
}

// The expected number moved past the messages to just below end, and past every held message that follows one of them
// without a gap: in one step, since all of them follow the last.
pub fn move_to(next: SequenceNumber, held: Held, end: SequenceNumber) -> Moved
    ensures { result ≡ move_to next.0 held.0 end.0 }
{
    if next >= end {
        return Moved { next, held };
    }
    let from_end = held.past(next.gap(end).less_one());
    let run = from_end.run();
    Moved {
        next: end.plus(run),
        held: from_end.past(MessageCount(run.0 + 1)),
    }
}

// The slot of a number.
pub fn slot_of(number: SequenceNumber) -> usize
    ensures { result ≡ slot_of number.0 }
{
    (number.0 % 64) as usize
}

impl EarlyReceiver {
    // How far a number above the expected one lies from the one after that: its place in the word.
    fn place_of(self, number: SequenceNumber) -> MessagePlace
        requires { self.base.next.0 < number.0 }
        ensures { result.0 ≡ min largest_count (number.0 - self.base.next.0 - 1) }
    {
        self.base.next.plus(MessageCount(1)).place_of(number)
    }

    // Whether a number is held.
    pub fn holds(self, number: SequenceNumber) -> bool
        ensures { result ≡ is_held self number.0 }
    {
        self.base.next < number && self.held.has(self.place_of(number))
    }

    // Whether a message of this number and length is to be kept: not too long, not too far, and not held already.
    #[tactic(auto, using(crate::proofs::Rules::places))]
    fn keeps(self, number: SequenceNumber, size: usize) -> bool
        ensures { result ≡ keeps self number.0 size }
    {
        if self.base.next >= number || SLOT_SIZE < size {
            return false;
        }
        let place = self.place_of(number);
        let distance = place.before();
        if distance >= SLOTS {
            return false;
        }
        !self.held.has(place)
    }

    // A message laid from the first byte of its slot, its length noted and its number marked.
    fn store(
        self,
        lengths: &mut [u8],
        slots: &mut [u8],
        number: SequenceNumber,
        message: &[u8],
    ) -> Held
        requires { keeps self number.0 (length message.now) ≡ true }
        ensures { lent (early self.base result.0) lengths.new slots.new
            ≡ keep (lent self lengths.old slots.old) number.0 message.now }
    {
        let slot = slot_of(number);
        output::lay(slots, ByteOffset(slot * SLOT_SIZE), message);
        output::lay16(lengths, ByteOffset(slot * COUNT_SIZE), message.len() as u16);
        self.held.marked(self.place_of(number))
    }

    // One message that isn't the expected one, kept or left: the numbers that are held then. Where the slots are too
    // short nothing is laid, though the number is marked: `take` has refused such slots before.
    pub fn keep(
        self,
        lengths: &mut [u8],
        slots: &mut [u8],
        number: SequenceNumber,
        message: &[u8],
    ) -> Held
        ensures { lent (early self.base result.0) lengths.new slots.new
            ≡ keep_one (lent self lengths.old slots.old) number.0 message.now }
    {
        if self.keeps(number, message.len()) {
            return self.store(lengths, slots, number, message);
        }
        self.held
    }
}
