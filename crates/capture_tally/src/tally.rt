// The five counts of a report, and the parts that one answer, and the request beside it, add to them.
#![tactic(auto, using(crate::proofs::Rules::tallies))]

ghost use Rattle.std.specs.Prelude.{◌≡◌};
ghost use Rattle.early_receiver.specs.Answers.{early_words, request_words};
ghost use Rattle.capture_tally.specs.Tally.{parts_of, plus_of};

use early_receiver::early::{Answer, Ask};

// Messages delivered, and datagrams that are old, quiet, draw a request, or are refused.
#[derive(Clone, Copy)]
pub struct Tally {
    pub delivered: u64,
    pub old: u64,
    pub quiet: u64,
    pub asked: u64,
    pub refused: u64,
}

impl Tally {
    // Nothing counted.
    pub const NONE: Tally = Tally {
        delivered: 0,
        old: 0,
        quiet: 0,
        asked: 0,
        refused: 0,
    };

    // What an answer and the request beside it add to each count: a request is one, whatever answer it stands beside.
    pub fn of(answer: Answer, request: Option<Ask>) -> Tally
        ensures { result ≡ parts_of (early_words answer) (request_words request) }
    {
        let asking = Tally {
            asked: u64::from(request.is_some()),
            ..Tally::NONE
        };
        match answer {
            Answer::Deliver { count, .. } => Tally {
                delivered: u64::from(count.0),
                ..asking
            },
            Answer::Old => Tally { old: 1, ..asking },
            Answer::Quiet => Tally { quiet: 1, ..asking },
            Answer::Ahead | Answer::Ended => asking,
            Answer::Refused(_) => Tally {
                refused: 1,
                ..asking
            },
        }
    }

    // Both tallies together, count by count.
    pub fn plus(self, other: Tally) -> Tally
        ensures { result ≡ plus_of self other }
    {
        Tally {
            delivered: self.delivered.saturating_add(other.delivered),
            old: self.old.saturating_add(other.old),
            quiet: self.quiet.saturating_add(other.quiet),
            asked: self.asked.saturating_add(other.asked),
            refused: self.refused.saturating_add(other.refused),
        }
    }
}
