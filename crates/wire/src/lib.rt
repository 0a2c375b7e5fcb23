// What every crate above shares: the three kinds of number, the refusals by name, big-endian numbers and bytes, read
// from a lent slice and laid into a lent output.
#![tactic(auto)]

pub mod compare;
pub mod kinds;
pub mod number;
pub mod output;
pub mod parts;
pub mod refusal;
