// What is missing from a capture, read piece by piece and in turns over a lent buffer.
#![tactic(auto)]

pub mod reading;
pub mod turning;
