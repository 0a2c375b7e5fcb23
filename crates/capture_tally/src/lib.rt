// The report of a capture as a value: the receiver, how many records it was given, and its answers counted.
#![tactic(auto)]

pub mod report;
pub mod tally;
