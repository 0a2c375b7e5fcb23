// The SoupBinTCP session at the server: it reads the front of a client's stream, answers, and goes on by its table.
// The server goes in by value and comes back by value.
#![tactic(auto)]

pub mod server;
