// Downstream packets, written into a lent output. A success reports its size and changes those bytes alone; a refusal
// changes none.
#![tactic(auto, using(crate::proofs::Rules::ends, crate::proofs::Rules::grounds, crate::proofs::Rules::packets))]

ghost use Rattle.std.specs.Prelude.{◌≡◌, ◌+◌, ◌≤◌, length};
ghost use Rattle.wire.specs.Output.{put, Writes};
ghost use Rattle.wire.specs.Words.{refused_by};
ghost use Rattle.moldudp64.specs.Header.{header_size};
ghost use Rattle.moldudp64.specs.Blocks.{blocks_of};
ghost use Rattle.moldudp64.specs.Written.{encoded_end};
ghost use Rattle.moldudp64_writer.specs.Writer.{total, cut, encoded_cut, packet_ground, end_ground};
ghost use Rattle.moldudp64_writer.specs.RoundTrips.{PacketRoundTrip, EndRoundTrip};

use crate::header;
use crate::lengths::add_up;
use moldudp64::header::{END_OF_SESSION, LARGEST_DATAGRAM, SIZE};
use wire::kinds::{ByteOffset, LENGTH_SIZE, MessageCount, SESSION_SIZE, SequenceNumber};
use wire::refusal::Refusal;
use wire::{output, refusal};

// The most messages of one datagram.
pub const MOST_MESSAGES: MessageCount = MessageCount(u16::MAX - 1);

// 42, 44, 13, 14 or 12, the first that applies.
fn check(first: SequenceNumber, lengths: &[u16], joined: &[u8]) -> Result<(), Refusal>
    ensures { result ≡ refused_by (packet_ground first.0 lengths.now joined.now) }
{
    let count = lengths.len();
    if (MOST_MESSAGES.0 as usize) < count {
        return Err(refusal::TOO_MANY_MESSAGES);
    }
    if !add_up(lengths, joined) {
        return Err(refusal::LENGTHS_DIFFER);
    }
    if first.is_zero() {
        return Err(refusal::NUMBER_ZERO);
    }
    if !first.has_room(MessageCount(count as u16)) {
        return Err(refusal::NUMBERS_RUN_OUT);
    }
    // tested first so that the sum below can't wrap
    if LARGEST_DATAGRAM < joined.len() {
        return Err(refusal::DATAGRAM_LONG);
    }
    if LARGEST_DATAGRAM < SIZE + LENGTH_SIZE * count + joined.len() {
        return Err(refusal::DATAGRAM_LONG);
    }
    Ok(())
}

// Writes the blocks after the header: each turn takes what is left of the data after a message.
fn put_blocks(out: &mut [u8], lengths: &[u16], joined: &[u8])
    requires { (total lengths.now ≡ length joined.now)
        × (header_size + length (blocks_of (cut lengths.now joined.now)) ≤ length out.old) }
    ensures { out.new ≡ put out.old header_size
        (blocks_of (cut lengths.now joined.now)) }
{
    let mut rest = joined;
    let mut at = SIZE;
    for length in lengths {
        let size = *length as usize;
        output::lay16(out, ByteOffset(at), *length);
        at += LENGTH_SIZE;
        output::lay(out, ByteOffset(at), &rest[..size]);
        at += size;
        rest = &rest[size..];
    }
}

// Writes data from the lengths of the messages and their joined bytes; no lengths make a heartbeat.
pub fn write_messages(
    out: &mut [u8],
    session: [u8; SESSION_SIZE],
    first: SequenceNumber,
    lengths: &[u16],
    joined: &[u8],
) -> Result<usize, Refusal>
    ensures writes { Writes result out.old out.new
        (packet_ground first.0 lengths.now joined.now) 0
        (encoded_cut session first.0 lengths.now joined.now) }
    ensures round_trip { PacketRoundTrip }
{
    check(first, lengths, joined)?;
    let count = lengths.len();
    let size = SIZE + LENGTH_SIZE * count + joined.len();
    if out.len() < size {
        return Err(refusal::OUTPUT_SHORT);
    }
    header::put_header(out, session, first, MessageCount(count as u16));
    put_blocks(out, lengths, joined);
    Ok(size)
}

// Writes an end of session.
pub fn write_end_of_session(
    out: &mut [u8],
    session: [u8; SESSION_SIZE],
    next: SequenceNumber,
) -> Result<usize, Refusal>
    ensures writes { Writes result out.old out.new (end_ground next.0) 0
        (encoded_end session next.0) }
    ensures round_trip { EndRoundTrip }
{
    if next.is_zero() {
        return Err(refusal::NUMBER_ZERO);
    }
    if out.len() < SIZE {
        return Err(refusal::OUTPUT_SHORT);
    }
    header::put_header(out, session, next, END_OF_SESSION);
    Ok(SIZE)
}
