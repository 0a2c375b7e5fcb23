// The functions of SoupBinTCP that hosts call, by number: packets, the session at the server and at the client.
#![tactic(auto)]

pub mod clients;
pub mod servers;
pub mod soup;
