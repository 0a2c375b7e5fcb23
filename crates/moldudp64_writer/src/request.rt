// Request packets, written into a lent output.
#![tactic(auto, using(crate::proofs::Rules::requests))]

ghost use Rattle.wire.specs.Output.{Writes};
ghost use Rattle.moldudp64.specs.Header.{header};
ghost use Rattle.moldudp64.specs.Request.{request_ground};
ghost use Rattle.moldudp64_writer.specs.RoundTrips.{RequestRoundTrip};

use crate::header;
use moldudp64::header::SIZE;
use moldudp64::request;
use wire::kinds::{MessageCount, SESSION_SIZE, SequenceNumber};
use wire::refusal;
use wire::refusal::Refusal;

// Writes a request.
pub fn write(
    out: &mut [u8],
    session: [u8; SESSION_SIZE],
    first: SequenceNumber,
    count: MessageCount,
) -> Result<usize, Refusal>
    ensures writes { Writes result out.old out.new (request_ground first.0 count.0) 0
        (header session first.0 count.0) }
    ensures round_trip { RequestRoundTrip }
{
    request::check(first, count)?;
    if out.len() < SIZE {
        return Err(refusal::OUTPUT_SHORT);
    }
    header::put_header(out, session, first, count);
    Ok(SIZE)
}
