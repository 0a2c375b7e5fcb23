// The MoldUDP64 receiver that keeps early messages, given datagrams one by one. It is the plain receiver with a word of
// held numbers; the slots and the lengths of what they hold are lent to each call. It is started in
// `early_condition_3`.
#![tactic(auto)]

pub mod early;
