// One packet of a run, asked for by its place from 0. A caller that sends them all takes turns.
#![tactic(auto, using(crate::proofs::Rules::places))]

ghost use Rattle.std.specs.Prelude.{◌≡◌, ◌<◌, ◌^◌};
ghost use Rattle.wire.specs.Output.{Writes};
ghost use Rattle.moldudp64_writer.specs.Writer.{total};
ghost use Rattle.transmitter.specs.Transmitter.{transmit_ground, packet_at};
ghost use Rattle.transmitter.specs.Turns.{beginning};
ghost use Rattle.transmitter.specs.Walk.{past_groups};
ghost use Rattle.transmitter.specs.Statements.{TransmitterPromises};

use crate::turns::Progress;
use crate::{run, turns};
use packing::size;
use wire::kinds::{SESSION_SIZE, SequenceNumber};
use wire::refusal::Refusal;

// The progress past so many groups: a run that has fewer is passed whole.
fn reach(lengths: &[u16], room: usize, place: u64) -> Progress
    requires { total lengths.now < 2 ^ 64 }
    ensures { result ≡ past_groups room lengths.now beginning place }
{
    let mut at = turns::BEGINNING;
    for _ in 0..place {
        if lengths.len() <= at.messages {
            return at;
        }
        at = at.past(at.group(lengths, room));
    }
    at
}

// Writes the packet at a place: a run can have more than any count of messages, so a place is 64 bits.
pub fn write(
    out: &mut [u8],
    session: [u8; SESSION_SIZE],
    first: SequenceNumber,
    lengths: &[u16],
    joined: &[u8],
    size: usize,
    place: u64,
) -> Result<usize, Refusal>
    ensures writes { Writes result out.old out.new
        (transmit_ground size first.0 lengths.now joined.now place)
        0
        (packet_at session size first.0 lengths.now joined.now place) }
    ensures promises { TransmitterPromises }
{
    run::check(first, lengths, joined, size)?;
    let at = reach(lengths, size::room(size), place);
    at.next(out, session, first, lengths, joined, size).written
}
