// The text fields of SoupBinTCP packets: session, number, username and password. Each is read from the bytes of its
// field; session and number also byte by byte, for a caller that looks at a field in a loop of its own.
#![tactic(auto)]

pub mod letters;
pub mod number;
pub mod session;
pub mod sound;
