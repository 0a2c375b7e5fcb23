// What the two ends of a SoupBinTCP session share: their answers, and the promises of a session over a whole stream.
#![tactic(auto)]

pub mod answer;
