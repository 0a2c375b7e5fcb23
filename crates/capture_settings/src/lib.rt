// The settings at the front of a capture: the lines `session=`, `next=` and `limit=`. Nothing here speaks of a
// receiver.
#![tactic(auto)]

mod lines;
pub mod settings;
