// Downstream packets, read: what a datagram says, or why it is refused.
#![tactic(auto, using(crate::proofs::Rules::downstreams))]

ghost use Rattle.std.specs.Prelude.{◌≡◌, ◌≤◌, length};
ghost use Rattle.wire.specs.Words.{Injective};
ghost use Rattle.wire.specs.Bytes.{same_bytes};
ghost use Rattle.wire.specs.Words.{refused_by};
ghost use Rattle.moldudp64.specs.Header.{header_size, largest_datagram, number_of, count_of};
ghost use Rattle.moldudp64.specs.Downstream.{kind_of_count, block_count_of, refusal_of, downstream_words, downstream_of};
ghost use Rattle.moldudp64.specs.Downstream.{downstream_session};

use crate::{blocks, header};
use wire::kinds::{ByteOffset, MessageCount, SESSION_SIZE, SequenceNumber};
use wire::refusal::Refusal;
use wire::{compare, refusal};

// What a datagram says.
#[derive(Clone, Copy, Debug, PartialEq, Eq)]
pub enum Downstream {
    // Messages, the first with this number, and how many.
    Data {
        first: SequenceNumber,
        count: MessageCount,
    },
    // No messages; the next number is this one.
    Heartbeat {
        next: SequenceNumber,
    },
    // No more messages; the number after the last is this one.
    EndOfSession {
        next: SequenceNumber,
    },
}

// How many blocks follow a header with this count: none where it marks the end of the session.
fn block_count(count: MessageCount) -> MessageCount
    ensures { result.0 ≡ block_count_of (kind_of_count count.0) count.0 }
{
    if count == header::END_OF_SESSION {
        return MessageCount(0);
    }
    count
}

// 13 to 16, the lowest that applies to a datagram of good size with this number and this count.
fn check(datagram: &[u8], first: SequenceNumber, count: MessageCount) -> Result<(), Refusal>
    requires { (header_size ≤ length datagram.now) × (length datagram.now ≤ largest_datagram)
        × (first.0 ≡ number_of datagram.now) × (count.0 ≡ count_of datagram.now) }
    ensures { result ≡ refused_by (refusal_of datagram.now) }
{
    if first.is_zero() {
        return Err(refusal::NUMBER_ZERO);
    }
    let following = block_count(count);
    if !first.has_room(following) {
        return Err(refusal::NUMBERS_RUN_OUT);
    }
    blocks::walk(&datagram[header::SIZE..], following)
}

// Reads a datagram, with one look at its header and one walk over its blocks. The size is tested here and first, so
// that the header is read with no further test.
pub fn read(datagram: &[u8]) -> Result<Downstream, Refusal>
    ensures result_value { downstream_words result ≡ downstream_of datagram.now }
    ensures tells_apart { Injective downstream_words }
{
    if datagram.len() < header::SIZE {
        return Err(refusal::DATAGRAM_SHORT);
    }
    if header::LARGEST_DATAGRAM < datagram.len() {
        return Err(refusal::DATAGRAM_LONG);
    }
    let first = header::sequence_number(datagram);
    let count = header::message_count(datagram);
    check(datagram, first, count)?;
    if count.is_zero() {
        return Ok(Downstream::Heartbeat { next: first });
    }
    if count == header::END_OF_SESSION {
        return Ok(Downstream::EndOfSession { next: first });
    }
    Ok(Downstream::Data { first, count })
}

// The session of a datagram, as a part of it; empty where the datagram is refused.
pub fn session(datagram: &[u8]) -> &[u8]
    ensures { result.now ≡ downstream_session datagram.now }
{
    match read(datagram) {
        Ok(_) => &datagram[..SESSION_SIZE],
        Err(_) => &datagram[..0],
    }
}

// Whether the session of a datagram is the name; never where the datagram is refused.
pub fn is_session(datagram: &[u8], name: [u8; SESSION_SIZE]) -> bool
    ensures { result ≡ same_bytes (downstream_session datagram.now) name }
{
    compare::same_ten(session(datagram), ByteOffset(0), name)
}
