// The 20 bytes that start a downstream packet and are the whole of a request: session, sequence number, message count.
#![tactic(auto, using(crate::proofs::Rules::headers))]

ghost use Rattle.std.specs.Prelude.{◌≡◌, take};
ghost use Rattle.wire.specs.Bounds.{session_size};
ghost use Rattle.wire.specs.Bytes.{same_bytes};
ghost use Rattle.moldudp64.specs.Header.{number_of, count_of};

use wire::kinds::{
    ByteOffset, COUNT_SIZE, MessageCount, NUMBER_SIZE, SESSION_SIZE, SequenceNumber,
};
use wire::{compare, number};

pub const SESSION_AT: ByteOffset = ByteOffset(0);

pub const NUMBER_AT: ByteOffset = ByteOffset(SESSION_SIZE);

pub const COUNT_AT: ByteOffset = ByteOffset(SESSION_SIZE + NUMBER_SIZE);

// Bytes of a header.
pub const SIZE: usize = SESSION_SIZE + NUMBER_SIZE + COUNT_SIZE;

// This count marks the end of the session and is followed by no blocks.
pub const END_OF_SESSION: MessageCount = MessageCount(u16::MAX);

// Bytes of the largest datagram.
pub const LARGEST_DATAGRAM: usize = 65507;

// The number in a header. A byte past the end counts as 0.
pub(crate) fn sequence_number(bytes: &[u8]) -> SequenceNumber
    ensures { result.0 ≡ number_of bytes.now }
{
    SequenceNumber(number::be64(bytes, NUMBER_AT))
}

// The count in a header. A byte past the end counts as 0.
pub(crate) fn message_count(bytes: &[u8]) -> MessageCount
    ensures { result.0 ≡ count_of bytes.now }
{
    MessageCount(number::be16(bytes, COUNT_AT))
}

// Whether the ten bytes at the front are the name: the session of a datagram that was read already, without another
// walk over its blocks.
pub fn has_session(bytes: &[u8], name: [u8; SESSION_SIZE]) -> bool
    ensures { result ≡ same_bytes (take session_size bytes.now) name }
{
    compare::same_ten(bytes, SESSION_AT, name)
}
