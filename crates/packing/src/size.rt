// The size of a packet, which counts its header.
#![tactic(auto, using(crate::proofs::Rules::sizes))]

ghost use Rattle.std.specs.Prelude.{◌≡◌};
ghost use Rattle.wire.specs.Words.{refused_by};
ghost use Rattle.packing.specs.Fit.{size_ground, room_of};

use moldudp64::header::{LARGEST_DATAGRAM, SIZE};
use wire::kinds::LENGTH_SIZE;
use wire::refusal;
use wire::refusal::Refusal;

// The smallest holds a message of no bytes.
pub const LEAST: usize = SIZE + LENGTH_SIZE;

// 19 where a size is out of its bounds.
pub fn check(size: usize) -> Result<(), Refusal>
    ensures { result ≡ refused_by (size_ground size) }
{
    if size < LEAST || LARGEST_DATAGRAM < size {
        return Err(refusal::BAD_SETTING);
    }
    Ok(())
}

// What a size leaves for blocks.
pub fn room(size: usize) -> usize
    ensures { result ≡ room_of size }
{
    size.saturating_sub(SIZE)
}
