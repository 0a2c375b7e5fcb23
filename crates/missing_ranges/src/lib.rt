// The missing ranges of a session, kept in lent words. Nothing here reads a datagram.
#![tactic(auto)]

mod edges;
pub mod listing;
pub mod ranges;
