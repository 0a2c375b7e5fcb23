// The records of a capture, each a 2-byte length and a datagram, cut off the front of its bytes, and the buffer of a
// program that reads them piece by piece. Nothing here speaks of a receiver.
#![tactic(auto)]

pub mod buffer;
pub mod records;
