// What a datagram will deliver to the receiver that keeps early messages, had before the step: each message by its
// place from 0, as a part of the slots if it is held there, else of the datagram; and all of them in one walk.
#![tactic(auto)]

pub mod message;
pub mod walk;
