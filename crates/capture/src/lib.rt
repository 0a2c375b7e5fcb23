// A capture read piece by piece, in turns over a lent buffer, and whole: its settings, its records, and what it prints.
#![tactic(auto)]

pub mod reading;
pub mod turning;
pub mod whole;
