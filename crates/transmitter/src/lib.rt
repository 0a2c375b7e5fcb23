// Our own transmitter: a run of messages cut into downstream packets of at most a size, each with the most that fit.
// The run is lent: its lengths, their joined data, and the first message's number.
#![tactic(auto)]

pub mod place;
pub mod run;
pub mod turns;
