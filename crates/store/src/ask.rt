// What a request asks of a store.
#![tactic(auto, using(crate::proofs::Rules::steps))]

ghost use Rattle.std.specs.Prelude.{◌≡◌};
ghost use Rattle.store.specs.Steps.{ask_from, ask_of};

use moldudp64::request;
use wire::kinds::{MessageCount, SESSION_SIZE, SequenceNumber};
use wire::refusal::Refusal;
use wire::{compare, refusal};

// Which messages are wanted: the first one's number and its place, and how many at most.
#[derive(Clone, Copy)]
pub(crate) struct Asked {
    pub number: SequenceNumber,
    pub place: usize,
    pub count: usize,
}

// So many from a number on, at most to the store's end; 51 where the number isn't there.
fn from_number(
    first: SequenceNumber,
    held: usize,
    number: SequenceNumber,
    count: MessageCount,
) -> Result<Asked, Refusal>
    ensures { result ≡ ask_from first.0 held number.0 count.0 }
{
    if number.0 < first.0 {
        return Err(refusal::NOT_IN_STORE);
    }
    let place = (number.0 - first.0) as usize;
    if held <= place {
        return Err(refusal::NOT_IN_STORE);
    }
    let count = (count.0 as usize).min(held - place);
    Ok(Asked {
        number,
        place,
        count,
    })
}

// Reads a request to a store of so many messages: the first of 47, 13, 48, 53, 51 that applies, or what it wants.
pub(crate) fn read(
    session: [u8; SESSION_SIZE],
    first: SequenceNumber,
    held: usize,
    request: &[u8],
) -> Result<Asked, Refusal>
    ensures { result ≡ ask_of session first.0 held request.now }
{
    let wanted = request::read(request)?;
    if !compare::is_name(request::session(request), session) {
        return Err(refusal::STORE_DIFFERS);
    }
    from_number(first, held, wanted.first, wanted.count)
}
