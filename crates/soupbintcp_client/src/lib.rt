// The SoupBinTCP session at the client: it reads the front of a server's stream, answers, and goes on by its table.
// The client goes in by value and comes back by value.
#![tactic(auto)]

pub mod client;
