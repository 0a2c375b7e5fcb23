// A packet of a letter, laid at the front of an output.
#![tactic(auto, using(crate::proofs::Rules::packets))]

ghost use Rattle.std.specs.Prelude.{◌≡◌, ◌+◌, ◌≤◌, [], length};
ghost use Rattle.wire.specs.Output.{Writes, put};
ghost use Rattle.soupbintcp.specs.Letters.{most_payload};
ghost use Rattle.soupbintcp.specs.Head.{head_size};
ghost use Rattle.soupbintcp_writer.specs.Packets.{head_bytes, encoded, payload_ground};

use soupbintcp::packet::{HEAD_SIZE, MOST_PAYLOAD};
use wire::kinds::{ByteOffset, LENGTH_SIZE};
use wire::refusal::Refusal;
use wire::{output, refusal};

// Lays the length and the letter before a payload of so many bytes.
pub(crate) fn put_head(out: &mut [u8], letter: u8, payload: usize)
    requires { (head_size ≤ length out.old) × (payload ≤ most_payload) }
    ensures { out.new ≡ put out.old 0 (head_bytes letter payload) }
{
    output::lay16(out, ByteOffset(0), (payload + 1) as u16);
    output::lay(out, ByteOffset(LENGTH_SIZE), &[letter]);
}

// Writes a letter and a payload.
pub(crate) fn write_payload(out: &mut [u8], letter: u8, payload: &[u8]) -> Result<usize, Refusal>
    ensures { Writes result out.old out.new (payload_ground payload.now) 0
        (encoded letter payload.now) }
{
    if MOST_PAYLOAD < payload.len() {
        return Err(refusal::PAYLOAD_LONG);
    }
    let size = HEAD_SIZE + payload.len();
    output::room(out.len(), ByteOffset(0), size)?;
    put_head(out, letter, payload.len());
    output::lay(out, ByteOffset(HEAD_SIZE), payload);
    Ok(size)
}

// Writes a letter alone.
pub(crate) fn write_letter(out: &mut [u8], letter: u8) -> Result<usize, Refusal>
    ensures { Writes result out.old out.new 0 0 (encoded letter []) }
{
    write_payload(out, letter, &[])
}
