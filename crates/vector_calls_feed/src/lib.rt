// The functions of the feed that hosts call, by number: MoldUDP64 packets, both receivers, the store, the
// transmitter.
#![tactic(auto)]

pub mod earlies;
pub mod mold;
pub mod receivers;
pub mod stores;
pub mod transmitters;
