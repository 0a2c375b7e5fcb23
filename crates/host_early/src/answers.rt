// What a receiver that keeps early messages answers, in words: by the table, and beside it a request.
#![tactic(auto, using(crate::proofs::Rules::words))]

ghost use Rattle.std.specs.Prelude.{◌≡◌};
ghost use Rattle.early_receiver.specs.Answers.{early_words, request_words};
ghost use Rattle.host_answers.specs.Answers.{said_refusal, said_values};
ghost use Rattle.host_early.specs.Replies.{row_words, ask_words, part_words, EarlyWordsApart};

use early_messages::message::Part;
use early_receiver::early::{Answer, Ask};
use wire::refusal::Refusal;

// What a receiver answers, by number.
const DELIVER: u64 = 1;

const OLD: u64 = 2;

const QUIET: u64 = 3;

const AHEAD: u64 = 4;

const ENDED: u64 = 5;

// The words of an answer by the table, those of a request behind them, and all of them.
pub const ROW_WORDS: usize = 4;

const REQUEST_WORDS: usize = 3;

pub const ANSWER_WORDS: usize = ROW_WORDS + REQUEST_WORDS;

// Those of a message's part.
const PART_WORDS: usize = 4;

// An answer as a host gets it: its words, or its refusal.
#[tactic(auto, using(crate::proofs::Rules::words), unfolding(early_receiver::specs::Answers::early_words, host_answers::specs::Answers::said_refusal, host_answers::specs::Answers::said_values, host_answers::specs::Answers::words_at, host_answers::specs::Answers::padded, host_receiver::specs::Replies::answer_number))]
pub fn answer_words(answer: Answer) -> Result<[u64; ROW_WORDS], Refusal>
    ensures number_value { (said_refusal result ≡ (early_words answer).refusal)
        × (said_values 4 result ≡ row_words (early_words answer)) }
    ensures apart { EarlyWordsApart }
{
    match answer {
        Answer::Deliver {
            first,
            count,
            skipped,
        } => Ok([DELIVER, first.0, u64::from(count.0), u64::from(skipped.0)]),
        Answer::Old => Ok([OLD, 0, 0, 0]),
        Answer::Quiet => Ok([QUIET, 0, 0, 0]),
        Answer::Ahead => Ok([AHEAD, 0, 0, 0]),
        Answer::Ended => Ok([ENDED, 0, 0, 0]),
        Answer::Refused(r) => Err(r),
    }
}

// The words of a request: whether there is one, the first number wanted, and how many.
#[tactic(auto, unfolding(early_receiver::specs::Answers::request_words, crate::specs::Replies::ask_words, host_answers::specs::Answers::padded))]
pub fn request_words(request: Option<Ask>) -> [u64; REQUEST_WORDS]
    ensures { result ≡ ask_words (request_words request) }
{
    match request {
        None => [0; REQUEST_WORDS],
        Some(ask) => [1, ask.from.0, u64::from(ask.count.0)],
    }
}

// The words of a message's part: whether it is there, whether in the slots, its offset and its length.
pub fn part_words(part: Part) -> [u64; PART_WORDS]
    ensures { result ≡ part_words part }
{
    [
        host_answers::flag(part.exists),
        host_answers::flag(part.held),
        part.offset.0 as u64,
        part.length as u64,
    ]
}
