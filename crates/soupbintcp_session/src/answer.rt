// What a session answers to the front of a stream.
#![tactic(auto, using(crate::proofs::Rules::messages))]

ghost use Rattle.std.specs.Prelude.{◌≡◌};
ghost use Rattle.soupbintcp_session.specs.Answer.{session_answer_words, answer_message, SessionAnswersApart};

use wire::kinds::{ByteOffset, SequenceNumber};
use wire::parts;
use wire::refusal::Refusal;

#[derive(Clone, Copy, Debug, PartialEq, Eq)]
pub enum Answer {
    NeedMore,
    // A login is accepted, from this number on. The session's name stands in the session that is handed back.
    Accepted {
        number: SequenceNumber,
    },
    // A login is rejected; the reason is `A` or `S`.
    Rejected {
        reason: u8,
    },
    // A message handed up: its number, and its place in the stream.
    Sequenced {
        number: SequenceNumber,
        at: ByteOffset,
        length: usize,
    },
    Unsequenced {
        at: ByteOffset,
        length: usize,
    },
    Heartbeat,
    Debug,
    LoggedOut,
    EndOfSession,
    Refused(Refusal),
}

// The message that an answer hands up, as a part of the stream that was answered; no bytes where it hands up none.
pub fn message(stream: &[u8], answer: Answer) -> &[u8]
    ensures result_value { result.now ≡ answer_message (session_answer_words answer) stream.now }
    ensures tells_apart { SessionAnswersApart }
{
    match answer {
        Answer::Sequenced { at, length, .. } | Answer::Unsequenced { at, length } => {
            parts::part(stream, at, length)
        }
        _ => &[],
    }
}
