// What a receiver answers, in words.
ghost use Rattle.std.specs.Prelude.{◌≡◌};
ghost use Rattle.receiver.specs.Table.{answer_words};
ghost use Rattle.host_answers.specs.Answers.{said_refusal, said_values, words_of};
ghost use Rattle.host_receiver.specs.Replies.{answer_number};

use receiver::receiver::Answer;
use wire::refusal::Refusal;

// What a receiver answers, by number.
const DELIVER: u64 = 1;

const OLD: u64 = 2;

const QUIET: u64 = 3;

const ASK: u64 = 4;

const ENDED: u64 = 5;

// The words of an answer: which it is, and its three values.
const ANSWER_WORDS: usize = 4;

// An answer as a host gets it: its words, or its refusal.
#[tactic(auto, unfolding(receiver::specs::Table::answer_words, host_answers::specs::Answers::said_refusal, host_answers::specs::Answers::said_values, host_answers::specs::Answers::words_at, host_answers::specs::Answers::padded, crate::specs::Replies::answer_number))]
pub fn answer_words(answer: Answer) -> Result<[u64; ANSWER_WORDS], Refusal>
    ensures { (said_refusal result ≡ (answer_words answer).refusal)
        × (said_values 4 result ≡ words_of answer_number 4 (answer_words answer)) }
{
    match answer {
        Answer::Deliver {
            first,
            count,
            skipped,
        } => Ok([DELIVER, first.0, u64::from(count.0), u64::from(skipped.0)]),
        Answer::Old => Ok([OLD, 0, 0, 0]),
        Answer::Quiet => Ok([QUIET, 0, 0, 0]),
        Answer::Ask { from, count } => Ok([ASK, from.0, u64::from(count.0), 0]),
        Answer::Ended => Ok([ENDED, 0, 0, 0]),
        Answer::Refused(r) => Err(r),
    }
}
