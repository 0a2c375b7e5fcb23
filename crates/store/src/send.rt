// The messages that are taken, handed to the writer of packets.
#![tactic(auto, using(crate::proofs::Rules::sendings))]

ghost use Rattle.wire.specs.Output.{Writes};
ghost use Rattle.moldudp64_writer.specs.Writer.{encoded_cut, packet_ground};
ghost use Rattle.store.specs.Steps.{Within, taken_lengths, taken_data};

use crate::ask::Asked;
use crate::pick::Picked;
use moldudp64_writer::downstream;
use wire::kinds::SESSION_SIZE;
use wire::refusal::Refusal;

// Writes the packet of the messages taken: 41 is the writer's.
pub(crate) fn send(
    out: &mut [u8],
    session: [u8; SESSION_SIZE],
    lengths: &[u16],
    joined: &[u8],
    asked: Asked,
    picked: Picked,
) -> Result<usize, Refusal>
    requires { Within asked picked lengths.now joined.now }
    ensures { Writes result out.old out.new
        (packet_ground asked.number.0 (taken_lengths asked picked lengths.now)
        (taken_data picked joined.now))
        0
        (encoded_cut session asked.number.0 (taken_lengths asked picked lengths.now)
        (taken_data picked joined.now)) }
{
    let number = asked.number;
    let place = asked.place;
    let end = place + picked.count;
    let from = picked.from;
    let to = from + picked.bytes;
    downstream::write_messages(
        out,
        session,
        number,
        &lengths[place..end],
        &joined[from..to],
    )
}
