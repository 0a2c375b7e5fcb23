// The missing ranges as text, laid at the front of a lent output.
#![tactic(auto)]

mod lines;
pub mod missing_text;
