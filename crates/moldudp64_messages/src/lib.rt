// The messages of a MoldUDP64 datagram: one by its place, or all in one walk with a cursor.
#![tactic(auto)]

pub mod cursor;
pub mod message;
