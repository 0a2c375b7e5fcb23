// What a server sends; debug packets are sent by both.
#![tactic(auto, using(crate::proofs::Rules::accepts, crate::proofs::Rules::letters, crate::proofs::Rules::rejects))]

ghost use Rattle.std.specs.Prelude.{[], ◌∷◌};
ghost use Rattle.wire.specs.Output.{Writes};
ghost use Rattle.soupbintcp.specs.Letters.{letter_accepted, letter_debug, letter_end, letter_rejected, letter_sequenced};
ghost use Rattle.soupbintcp.specs.Letters.{letter_server_heartbeat};
ghost use Rattle.soupbintcp_writer.specs.Packets.{encoded, payload_ground, accepted_ground, accepted_payload};
ghost use Rattle.soupbintcp_writer.specs.Packets.{reason_ground};
ghost use Rattle.soupbintcp_writer.specs.RoundTrips.{EveryPacketWritesBack, PayloadRoundTrip, LetterRoundTrip};
ghost use Rattle.soupbintcp_writer.specs.RoundTrips.{AcceptedRoundTrip, RejectedRoundTrip};

use crate::packets;
use soupbintcp::packet;
use soupbintcp::packet::{ACCEPTED_PAYLOAD, HEAD_SIZE};
use text_fields::{number, session};
use wire::kinds::{ByteOffset, SESSION_SIZE, SequenceNumber};
use wire::refusal::Refusal;
use wire::{output, refusal};

// Bytes of a login accepted: the head, the session and the number.
const ACCEPTED_SIZE: usize = HEAD_SIZE + ACCEPTED_PAYLOAD;

// Where its number stands: after the session.
const NUMBER_AT: ByteOffset = ByteOffset(HEAD_SIZE + SESSION_SIZE);

// Writes a debug packet, which a client sends too.
pub fn write_debug(out: &mut [u8], payload: &[u8]) -> Result<usize, Refusal>
    ensures writes { Writes result out.old out.new (payload_ground payload.now) 0
        (encoded letter_debug payload.now) }
    ensures round_trip { PayloadRoundTrip }
    ensures every { EveryPacketWritesBack }
{
    packets::write_payload(out, b'+', payload)
}

// Writes a sequenced message.
pub fn write_sequenced(out: &mut [u8], payload: &[u8]) -> Result<usize, Refusal>
    ensures writes { Writes result out.old out.new (payload_ground payload.now) 0
        (encoded letter_sequenced payload.now) }
    ensures round_trip { PayloadRoundTrip }
{
    packets::write_payload(out, b'S', payload)
}

// Writes a server's heartbeat.
pub fn write_heartbeat(out: &mut [u8]) -> Result<usize, Refusal>
    ensures writes { Writes result out.old out.new 0 0 (encoded letter_server_heartbeat []) }
    ensures round_trip { LetterRoundTrip }
{
    packets::write_letter(out, b'H')
}

// Writes an end of session.
pub fn write_end_of_session(out: &mut [u8]) -> Result<usize, Refusal>
    ensures writes { Writes result out.old out.new 0 0 (encoded letter_end []) }
    ensures round_trip { LetterRoundTrip }
{
    packets::write_letter(out, b'Z')
}

// Writes a login accepted.
pub fn write_accepted(
    out: &mut [u8],
    session: [u8; SESSION_SIZE],
    number: SequenceNumber,
) -> Result<usize, Refusal>
    ensures writes { Writes result out.old out.new (accepted_ground session number.0) 0
        (encoded letter_accepted (accepted_payload session number.0)) }
    ensures round_trip { AcceptedRoundTrip }
{
    if !session::is_session(&session, false) || number.is_zero() {
        return Err(refusal::FIELD_NOT_WRITTEN);
    }
    output::room(out.len(), ByteOffset(0), ACCEPTED_SIZE)?;
    packets::put_head(out, b'A', ACCEPTED_PAYLOAD);
    output::lay(out, ByteOffset(HEAD_SIZE), &session);
    output::lay(out, NUMBER_AT, &number::field(number));
    Ok(ACCEPTED_SIZE)
}

// Writes a login rejected.
pub fn write_rejected(out: &mut [u8], reason: u8) -> Result<usize, Refusal>
    ensures writes { Writes result out.old out.new (reason_ground reason) 0
        (encoded letter_rejected (reason ∷ [])) }
    ensures round_trip { RejectedRoundTrip }
{
    if !packet::is_reason(reason) {
        return Err(refusal::FIELD_NOT_WRITTEN);
    }
    packets::write_payload(out, b'J', &[reason])
}
