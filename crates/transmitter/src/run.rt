// What a whole run is refused for.
#![tactic(auto, using(crate::proofs::Rules::runs))]

ghost use Rattle.std.specs.Prelude.{◌≡◌};
ghost use Rattle.wire.specs.Words.{refused_by};
ghost use Rattle.packing.specs.Fit.{each_fits};
ghost use Rattle.transmitter.specs.Transmitter.{run_ground};

use moldudp64_writer::lengths;
use packing::size;
use wire::kinds::{LARGEST_NUMBER, LENGTH_SIZE, SequenceNumber};
use wire::refusal;
use wire::refusal::Refusal;

// 19, 44, 13, 14 or 52, the first that applies to a whole run.
pub fn check(
    first: SequenceNumber,
    lengths: &[u16],
    joined: &[u8],
    size: usize,
) -> Result<(), Refusal>
    ensures { result ≡ refused_by (run_ground size first.0 lengths.now joined.now) }
{
    size::check(size)?;
    if !lengths::add_up(lengths, joined) {
        return Err(refusal::LENGTHS_DIFFER);
    }
    if first.is_zero() {
        return Err(refusal::NUMBER_ZERO);
    }
    // a run can have more messages than a count of 16 bits
    if LARGEST_NUMBER.0 - first.0 < lengths.len() as u64 {
        return Err(refusal::NUMBERS_RUN_OUT);
    }
    if !each_fits(lengths, size::room(size)) {
        return Err(refusal::MESSAGE_LONG);
    }
    Ok(())
}

// Whether each message fits alone: the longest does. No turn ends the loop, so that the compiler looks at many at once.
fn each_fits(lengths: &[u16], room: usize) -> bool
    ensures { result ≡ each_fits room lengths.now }
{
    let mut longest: u16 = 0;
    for length in lengths {
        longest = longest.max(*length);
    }
    lengths.is_empty() || longest as usize + LENGTH_SIZE <= room
}
