// The message blocks after a header: each a 2-byte length that doesn't count itself, and so many data bytes.
#![tactic(auto, using(crate::proofs::Rules::blocks))]

ghost use Rattle.std.specs.Prelude.{◌≡◌};
ghost use Rattle.wire.specs.Words.{refused_by};
ghost use Rattle.moldudp64.specs.Blocks.{block_size, blocks_refusal};

use wire::kinds::{ByteOffset, LENGTH_SIZE, MessageCount};
use wire::refusal::Refusal;
use wire::{number, refusal};

// Bytes of the block at the front of what is left, its length field with them.
pub fn block_size(rest: &[u8]) -> usize
    ensures { result ≡ block_size rest.now }
{
    number::be16(rest, ByteOffset(0)) as usize + LENGTH_SIZE
}

// The walk: each turn takes what is left of the datagram after a block and goes on from there. 15 where a block runs
// past the end, 16 where bytes are left after the last one.
pub(crate) fn walk(blocks: &[u8], count: MessageCount) -> Result<(), Refusal>
    ensures { result ≡ refused_by (blocks_refusal count.0 blocks.now) }
{
    let mut rest = blocks;
    for _ in 0..count.0 {
        if rest.len() < LENGTH_SIZE {
            return Err(refusal::BLOCK_PAST_END);
        }
        let size = block_size(rest);
        if rest.len() < size {
            return Err(refusal::BLOCK_PAST_END);
        }
        rest = &rest[size..];
    }
    if rest.is_empty() {
        return Ok(());
    }
    Err(refusal::BYTES_AFTER_BLOCKS)
}
