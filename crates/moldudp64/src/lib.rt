// MoldUDP64 1.00, read from a lent slice: downstream packets and request packets.
#![tactic(auto)]

pub mod blocks;
pub mod downstream;
pub mod header;
pub mod request;
