// Condition 3 for every receiver of a feed, whatever it keeps: what a session is, which datagrams the condition speaks
// of, and what a receiver delivers over a list of them. There is nothing to run here: `specs/Faithful.antt` is the
// statement, and the laws are those of any receiver.
#![tactic(auto)]
