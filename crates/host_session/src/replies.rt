// What a step of either end answers, in words.
ghost use Rattle.std.specs.Prelude.{◌≡◌, IfErr};
ghost use Rattle.wire.specs.Words.{refused_words};
ghost use Rattle.soupbintcp_session.specs.Answer.{session_answer_words};
ghost use Rattle.host_answers.specs.Answers.{said_refusal, said_values, words_of};
ghost use Rattle.host_session.specs.Replies.{session_answer_number, sized, SessionNumbersApart};

use soupbintcp_session::answer::Answer;
use wire::refusal::Refusal;

// What a step answers, by number.
const NEED_MORE: u64 = 0;

const ACCEPTED: u64 = 1;

const REJECTED: u64 = 2;

const SEQUENCED: u64 = 3;

const UNSEQUENCED: u64 = 4;

const HEARTBEAT: u64 = 5;

const DEBUG: u64 = 6;

const LOGGED_OUT: u64 = 7;

const END_OF_SESSION: u64 = 8;

// The words of an answer: which it is, how many bytes the step took, and its three values.
pub const ANSWER_WORDS: usize = 5;

// An answer to a step that took so many bytes, as a host gets it: its words, or its refusal.
#[tactic(auto, using(crate::proofs::Rules::words), unfolding(soupbintcp_session::specs::Answer::session_answer_words, host_answers::specs::Answers::said_refusal, host_answers::specs::Answers::said_values, host_answers::specs::Answers::words_at, host_answers::specs::Answers::padded, crate::specs::Replies::session_answer_number))]
pub fn answer_words(answer: Answer, size: usize) -> Result<[u64; ANSWER_WORDS], Refusal>
    ensures number_value { (said_refusal result ≡ (session_answer_words answer).refusal)
        × (said_values 5 result ≡ words_of session_answer_number 5 (sized size (session_answer_words answer))) }
    ensures told { IfErr result (λ r. session_answer_words answer ≡ refused_words r) }
    ensures tells_apart { SessionNumbersApart }
{
    let taken = size as u64;
    match answer {
        Answer::NeedMore => Ok([NEED_MORE, taken, 0, 0, 0]),
        Answer::Accepted { number } => Ok([ACCEPTED, taken, number.0, 0, 0]),
        Answer::Rejected { reason } => Ok([REJECTED, taken, u64::from(reason), 0, 0]),
        Answer::Sequenced { number, at, length } => {
            Ok([SEQUENCED, taken, number.0, at.0 as u64, length as u64])
        }
        Answer::Unsequenced { at, length } => {
            Ok([UNSEQUENCED, taken, at.0 as u64, length as u64, 0])
        }
        Answer::Heartbeat => Ok([HEARTBEAT, taken, 0, 0, 0]),
        Answer::Debug => Ok([DEBUG, taken, 0, 0, 0]),
        Answer::LoggedOut => Ok([LOGGED_OUT, taken, 0, 0, 0]),
        Answer::EndOfSession => Ok([END_OF_SESSION, taken, 0, 0, 0]),
        Answer::Refused(r) => Err(r),
    }
}
