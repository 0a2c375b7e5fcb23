// The functions of captures that hosts call, by number: the report, and what is missing.
#![tactic(auto)]

pub mod captures;
pub mod missings;
