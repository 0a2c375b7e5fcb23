// SoupBinTCP logical packets, written into a lent output.
#![tactic(auto)]

pub mod client;
mod packets;
pub mod server;
