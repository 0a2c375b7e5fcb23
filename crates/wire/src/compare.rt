// Session names compared byte for byte.
#![tactic(auto, using(crate::proofs::Rules::names))]

ghost use Rattle.std.specs.Prelude.{◌≡◌, ◌≤◌, length, take, drop};
ghost use Rattle.wire.specs.Bounds.{session_size};
ghost use Rattle.wire.specs.Bytes.{same_bytes, as_number};

use crate::kinds::{ByteOffset, SESSION_SIZE};

// Whether the ten bytes at a place are the name; fewer than ten never are.
pub fn same_ten(s: &[u8], at: ByteOffset, name: [u8; SESSION_SIZE]) -> bool
    ensures { result ≡ same_bytes (take session_size (drop at.0 s.now)) name }
{
    match s.get(at.0..) {
        Some(rest) => SESSION_SIZE <= rest.len() && begins_with(rest, &name),
        None => false,
    }
}

// Whether bytes begin with a name: eight of them are compared as one number, and then two. `starts_with` goes byte by
// byte, and a step of a client then took 166 instructions for 140.
fn begins_with(s: &[u8], name: &[u8]) -> bool
    requires { (session_size ≤ length s.now) × (length name.now ≡ session_size) }
    ensures { result ≡ same_bytes (take session_size s.now) name.now }
{
    first_eight(s) == first_eight(name) && last_two(s) == last_two(name)
}

// The first eight of ten bytes as one number, in the order in which they stand.
fn first_eight(s: &[u8]) -> u64
    requires { session_size ≤ length s.now }
    ensures { result ≡ as_number (take 8 s.now) }
{
    u64::from_le_bytes([s[0], s[1], s[2], s[3], s[4], s[5], s[6], s[7]])
}

// The other two of ten bytes.
fn last_two(s: &[u8]) -> u16
    requires { session_size ≤ length s.now }
    ensures { result ≡ as_number (take 2 (drop 8 s.now)) }
{
    u16::from_le_bytes([s[8], s[9]])
}

// Whether bytes are the name, no more and no fewer.
pub fn is_name(s: &[u8], name: [u8; SESSION_SIZE]) -> bool
    ensures { result ≡ same_bytes s.now name }
{
    s.len() == SESSION_SIZE && same_ten(s, ByteOffset(0), name)
}
