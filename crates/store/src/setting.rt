// What a store is lent with.
#![tactic(auto, using(crate::proofs::Rules::steps))]

ghost use Rattle.std.specs.Prelude.{◌≡◌};
ghost use Rattle.wire.specs.Words.{refused_by};
ghost use Rattle.store.specs.Steps.{setting_ground};

use packing::size as packet;
use wire::kinds::{LARGEST_NUMBER, SequenceNumber};
use wire::refusal;
use wire::refusal::Refusal;

// 19 where the size is out of its bounds, or the numbers of so many messages are.
pub(crate) fn check(first: SequenceNumber, held: usize, size: usize) -> Result<(), Refusal>
    ensures { result ≡ refused_by (setting_ground first.0 held size) }
{
    packet::check(size)?;
    if first.is_zero() {
        return Err(refusal::BAD_SETTING);
    }
    if LARGEST_NUMBER.0 - first.0 < held as u64 {
        return Err(refusal::BAD_SETTING);
    }
    Ok(())
}
