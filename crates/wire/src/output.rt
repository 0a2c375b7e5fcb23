// Numbers and bytes laid into a lent output at a place. Where there is no room the answer is 41 and nothing is laid.
#![tactic(auto, using(crate::proofs::Rules::outputs))]

ghost use Rattle.std.specs.Prelude.{◌≡◌, ◌+◌, ◌≤◌, length, leb, if◌then◌else◌};
ghost use Rattle.wire.specs.Bytes.{bytes};
ghost use Rattle.wire.specs.Output.{put, Writes, OutputLaws};
ghost use Rattle.wire.specs.Refusals.{output_short};
ghost use Rattle.wire.specs.Words.{refused_by};

use crate::kinds::{ByteOffset, COUNT_SIZE, NUMBER_SIZE};
use crate::parts::first;
use crate::refusal;
use crate::refusal::Refusal;

// So many bytes are moved at once.
const EIGHT: usize = 8;

// Whether so many bytes have room at a place: 41 where they don't.
pub fn room(lent: usize, at: ByteOffset, size: usize) -> Result<(), Refusal>
    ensures { result ≡ refused_by (if leb (at.0 + size) lent then 0 else output_short) }
{
    // the size first: where it is known, one test of it serves every place
    if lent < size || lent - size < at.0 {
        return Err(refusal::OUTPUT_SHORT);
    }
    Ok(())
}

// Lays bytes where they have room, and nothing where they haven't: by eights, and what is left one by one. A copy of
// all at once makes the library for hosts need the C library's `memmove`.
#[tactic(auto, using(crate::proofs::Rules::copies))]
pub fn lay(out: &mut [u8], at: ByteOffset, src: &[u8])
    ensures after { out.new ≡ put out.old at.0 src.now }
    ensures laws { OutputLaws }
{
    let from = at.0;
    let size = src.len();
    if room(out.len(), at, size).is_ok() {
        let mut i: usize = 0;
        while EIGHT <= size - i {
            lay_there::<EIGHT>(out, from + i, first(&src[i..]));
            i += EIGHT;
        }
        while i < size {
            out[from + i] = src[i];
            i += 1;
        }
    }
}

// Lays an array that has room. Its size is known, so that a small one is one move of a word.
fn lay_there<const N: usize>(out: &mut [u8], at: usize, src: [u8; N])
    requires { at + N ≤ length out.old }
    ensures { out.new ≡ put out.old at src.entry }
{
    out[at..at + N].copy_from_slice(&src);
}

// Lays a 16-bit number where it has room.
pub fn lay16(out: &mut [u8], at: ByteOffset, number: u16)
    ensures after { out.new ≡ put out.old at.0 (bytes 2 number) }
    ensures laws { OutputLaws }
{
    if room(out.len(), at, COUNT_SIZE).is_ok() {
        lay_there(out, at.0, number.to_be_bytes());
    }
}

// Lays a 64-bit number where it has room.
pub fn lay64(out: &mut [u8], at: ByteOffset, number: u64)
    ensures after { out.new ≡ put out.old at.0 (bytes 8 number) }
    ensures laws { OutputLaws }
{
    if room(out.len(), at, NUMBER_SIZE).is_ok() {
        lay_there(out, at.0, number.to_be_bytes());
    }
}

// Lays bytes and answers how many, or 41 where they have no room.
pub fn put_bytes(out: &mut [u8], at: ByteOffset, src: &[u8]) -> Result<usize, Refusal>
    ensures writes { Writes result out.old out.new 0 at.0 src.now }
    ensures laws { OutputLaws }
{
    room(out.len(), at, src.len())?;
    lay(out, at, src);
    Ok(src.len())
}
