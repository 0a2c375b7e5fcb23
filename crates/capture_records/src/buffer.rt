// The buffer of a program that reads a capture piece by piece.
#![tactic(auto, using(crate::proofs::Rules::buffers))]

ghost use Rattle.std.specs.Prelude.{◌≡◌, ◌-◌, ◌≤◌, length, take, is_some, unwrap_or};
ghost use Rattle.capture_records.specs.Buffer.{are_places, kept_size, kept_of};

use std::io::Read;
use wire::kinds::ByteOffset;

// Moves the bytes from one place up to another to the front, and answers how many they are: perhaps none. Where these
// are no places of the buffer, nothing is moved.
pub fn keep(buf: &mut [u8], from: ByteOffset, to: ByteOffset) -> Option<usize>
    ensures there_value { (is_some result ≡ are_places (length buf.old) from.0 to.0)
        × (unwrap_or result 0 ≡ kept_size (length buf.old) from.0 to.0) }
    ensures little { unwrap_or result 0 ≤ length buf.old }
    ensures moved { buf.new ≡ kept_of buf.old from.0 to.0 }
{
    let first = from.0;
    let end = to.0;
    if buf.len() < end || end < first {
        return None;
    }
    buf.copy_within(first..end, 0);
    Some(end - first)
}

// Reads once behind the bytes that are kept, and answers how many came: none where the input ends or the read fails, or
// where the buffer has no more than what is kept.
pub fn fill(input: &mut impl Read, buf: &mut [u8], have: usize) -> usize
    ensures room { result ≤ length buf.old - have }
    ensures kept { take have buf.new ≡ take have buf.old }
{
    if buf.len() < have {
        return 0;
    }
    input.read(&mut buf[have..]).unwrap_or(0)
}
