// The report of a capture as text, laid at the front of a lent output.
#![tactic(auto)]

pub mod report_text;
