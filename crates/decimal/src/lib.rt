// Decimal numbers as text: a digit read on to a number, and a number laid into a lent output without leading zeros.
#![tactic(auto)]

pub mod reading;
pub mod writing;
