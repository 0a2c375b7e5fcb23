// MoldUDP64 1.00, written into a lent output: downstream packets and request packets.
#![tactic(auto)]

pub mod downstream;
mod header;
pub mod lengths;
pub mod request;
