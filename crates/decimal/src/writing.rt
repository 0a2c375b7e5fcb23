// A number as its digits, without leading zeros.
#![tactic(auto, using(crate::proofs::Rules::writings))]

ghost use Rattle.wire.specs.Output.{Writes};
ghost use Rattle.decimal.specs.Decimal.{digits, SpellsNumbers};

use wire::kinds::ByteOffset;
use wire::output;
use wire::refusal::Refusal;

// Lays the digits of a number at a place.
pub fn put(out: &mut [u8], at: ByteOffset, number: u64) -> Result<usize, Refusal>
    ensures writes { Writes result out.old out.new 0 at.0 (digits number) }
    ensures spells { SpellsNumbers }
{
    let mut text = [0u8; 20];
    let size = io::decimal(number, &mut text);
    output::put_bytes(out, at, &text[..size])
}
