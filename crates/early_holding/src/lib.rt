// What the receiver that keeps early messages holds: 64 slots of 1,024 bytes and the length of the message in each,
// both lent to every call, and a word that marks the held numbers. One message at a time.
#![tactic(auto)]

pub mod holding;
