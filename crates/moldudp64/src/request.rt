// Request packets, read.
#![tactic(auto, using(crate::proofs::Rules::requests))]

ghost use Rattle.std.specs.Prelude.{◌≡◌};
ghost use Rattle.wire.specs.Words.{Injective};
ghost use Rattle.wire.specs.Words.{refused_by};
ghost use Rattle.moldudp64.specs.Request.{request_ground, request_words, request_of, request_session};

use crate::header;
use wire::kinds::{MessageCount, SESSION_SIZE, SequenceNumber};
use wire::refusal;
use wire::refusal::Refusal;

// What a request wants: the first number, and how many.
#[derive(Clone, Copy, Debug, PartialEq, Eq)]
pub struct Wanted {
    pub first: SequenceNumber,
    pub count: MessageCount,
}

// 13, then 48, for a number and a count: the reader's and the writer's one rule.
pub fn check(first: SequenceNumber, count: MessageCount) -> Result<(), Refusal>
    ensures { result ≡ refused_by (request_ground first.0 count.0) }
{
    if first.is_zero() {
        return Err(refusal::NUMBER_ZERO);
    }
    if count.is_zero() {
        return Err(refusal::REQUEST_COUNT);
    }
    if count == header::END_OF_SESSION {
        return Err(refusal::REQUEST_COUNT);
    }
    Ok(())
}

// Reads a request: 47, 13 or 48, the first that applies, or what it wants.
pub fn read(request: &[u8]) -> Result<Wanted, Refusal>
    ensures result_value { request_words result ≡ request_of request.now }
    ensures tells_apart { Injective request_words }
{
    if request.len() != header::SIZE {
        return Err(refusal::REQUEST_SIZE);
    }
    let first = header::sequence_number(request);
    let count = header::message_count(request);
    check(first, count)?;
    Ok(Wanted { first, count })
}

// The session of a request, as a part of it; empty where the request is refused.
pub fn session(request: &[u8]) -> &[u8]
    ensures { result.now ≡ request_session request.now }
{
    match read(request) {
        Ok(_) => &request[..SESSION_SIZE],
        Err(_) => &request[..0],
    }
}
