// A byte of a lent slice, the bytes at a place, and the first bytes as an array.
#![tactic(auto, using(crate::proofs::Rules::numbers, crate::proofs::Rules::parts))]

ghost use Rattle.std.specs.Prelude.{◌≡◌, get_or, take, drop};
ghost use Rattle.wire.specs.Parts.{first_bytes};

use crate::kinds::ByteOffset;

// The byte at a place; a byte past the end counts as 0.
pub fn byte(s: &[u8], at: ByteOffset) -> u8
    ensures { result ≡ get_or s.now at.0 0 }
{
    s.get(at.0).copied().unwrap_or(0)
}

// So many bytes at a place, or as many as there are.
pub fn part(s: &[u8], at: ByteOffset, size: usize) -> &[u8]
    ensures { result.now ≡ take size (drop at.0 s.now) }
{
    match s.get(at.0..) {
        Some(rest) => &rest[..size.min(rest.len())],
        None => &s[..0],
    }
}

// The first bytes; all zeros where there are fewer. Copied as a whole, so that the compiler moves no single byte.
pub fn first<const N: usize>(s: &[u8]) -> [u8; N]
    ensures { result ≡ first_bytes N s.now }
{
    match s.first_chunk() {
        Some(bytes) => *bytes,
        None => [0; N],
    }
}
