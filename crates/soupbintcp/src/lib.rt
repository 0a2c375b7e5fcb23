// SoupBinTCP logical packets, read: the front of a stream, the parts of the packet there, and the scan over several
// packets.
#![tactic(auto)]

mod fields;
pub mod front;
mod head;
mod letters;
pub mod packet;
pub mod scan;
