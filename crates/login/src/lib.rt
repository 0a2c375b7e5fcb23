// The login: account records, the lookup in a table that is lent as bytes, and the decision.
#![tactic(auto)]

pub mod account;
pub mod decision;
pub mod table;
