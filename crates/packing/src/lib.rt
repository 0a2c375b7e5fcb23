// Whole messages in packets of a size, by their lengths alone.
#![tactic(auto)]

pub mod fit;
pub mod size;
