// Big-endian numbers read from a slice, the most significant byte first. A byte past the end counts as 0, so that every
// place of every slice has a number and no caller has to test before it reads.
#![tactic(auto, using(crate::proofs::Rules::numbers))]

ghost use Rattle.std.specs.Prelude.{◌≡◌, ◌≤◌, length};
ghost use Rattle.wire.specs.Bytes.{number};

use crate::kinds::{ByteOffset, NUMBER_SIZE};
use crate::parts::byte;

// The 16-bit number at a place.
pub fn be16(s: &[u8], at: ByteOffset) -> u16
    ensures { result ≡ number s.now at.0 2 }
{
    if s.len() <= at.0 {
        return 0;
    }
    u16::from_be_bytes([byte(s, at), byte(s, ByteOffset(at.0 + 1))])
}

// The 64-bit number at a place: the one leaf that reads an eight-byte number. Where all eight bytes are there, which
// one test says, they are read as one.
pub fn be64(s: &[u8], at: ByteOffset) -> u64
    ensures { result ≡ number s.now at.0 8 }
{
    if s.len() < NUMBER_SIZE || s.len() - NUMBER_SIZE < at.0 {
        return at_the_end(s, at.0);
    }
    in_front(&s[at.0..])
}

// The number in front of a slice that has all eight bytes.
fn in_front(s: &[u8]) -> u64
    requires { 8 ≤ length s.now }
    ensures { result ≡ number s.now 0 8 }
{
    u64::from_be_bytes([s[0], s[1], s[2], s[3], s[4], s[5], s[6], s[7]])
}

// The 64-bit number where the slice may end before the number does, byte by byte.
fn at_the_end(s: &[u8], i: usize) -> u64
    ensures { result ≡ number s.now i 8 }
{
    if s.len() <= i {
        return 0;
    }
    let mut value: u64 = 0;
    for place in 0..NUMBER_SIZE {
        value = value * 256 + u64::from(byte(s, ByteOffset(i + place)));
    }
    value
}
