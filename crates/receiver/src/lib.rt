// The MoldUDP64 receiver: it is started on a session's name, or on a blank one that it then learns, with an expected
// number and an asking limit; it takes datagrams one by one, and answers each by document 01's table. It goes in by
// value and comes back by value.
#![tactic(auto)]

pub mod delivery;
pub mod receiver;
