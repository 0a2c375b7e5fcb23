// The front of a stream as far as its length and letter tell: 21 to 24, need more, or a whole packet.
#![tactic(auto, using(crate::proofs::Rules::heads))]

ghost use Rattle.std.specs.Prelude.{◌≡◌};
ghost use Rattle.soupbintcp.specs.Head.{head_words, head_of};

use crate::letters;
use crate::packet::{HEAD_SIZE, MOST_PAYLOAD, Sender};
use wire::kinds::{ByteOffset, LENGTH_SIZE};
use wire::refusal::Refusal;
use wire::{number, refusal};

// A whole packet of so many bytes, need more, or a refusal.
#[derive(Clone, Copy, Debug, PartialEq, Eq)]
pub enum Head {
    Whole { size: usize },
    NeedMore,
    Refused(Refusal),
}

// The front of a stream, before its fields.
pub(crate) fn read(stream: &[u8], sender: Sender) -> Head
    ensures { head_words result ≡ head_of sender stream.now }
{
    if stream.len() < LENGTH_SIZE {
        return Head::NeedMore;
    }
    let length = usize::from(number::be16(stream, ByteOffset(0)));
    if length == 0 {
        return Head::Refused(refusal::LENGTH_ZERO);
    }
    let payload = length - 1;
    if MOST_PAYLOAD < payload {
        return Head::Refused(refusal::PAYLOAD_LONG);
    }
    if stream.len() < HEAD_SIZE {
        return Head::NeedMore;
    }
    let row = letters::row_of(stream[LENGTH_SIZE]);
    if !letters::is_sent(row, sender) {
        return Head::Refused(refusal::LETTER_NOT_SENT);
    }
    if !letters::is_allowed(row, payload) {
        return Head::Refused(refusal::LENGTH_WRONG);
    }
    let size = length + LENGTH_SIZE;
    if stream.len() < size {
        return Head::NeedMore;
    }
    Head::Whole { size }
}
