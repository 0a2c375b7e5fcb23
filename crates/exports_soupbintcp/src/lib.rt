// SoupBinTCP packets for hosts in other languages. `include/eiderwagon.h` says what each function takes and answers.
#![tactic(auto)]

pub mod packets;
pub mod writers;
