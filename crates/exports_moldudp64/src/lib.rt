// MoldUDP64 packets for hosts in other languages. `include/eiderwagon.h` says what each function takes and answers.
#![tactic(auto)]

pub mod datagrams;
pub mod messages;
pub mod requests;
pub mod writers;
