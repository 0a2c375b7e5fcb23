// A branch store that answers re-requests. It is lent: a session, the first message's number, the messages' lengths and
// their joined data.
#![tactic(auto, using(crate::proofs::Rules::answers))]

mod ask;
mod pick;
mod send;
mod setting;

ghost use Rattle.wire.specs.Output.{Writes};
ghost use Rattle.std.specs.Prelude.{◌≡◌};
ghost use Rattle.store.specs.Steps.{refusal_behind};
ghost use Rattle.store.specs.Store.{store, answer_ground, answer_bytes};
ghost use Rattle.store.specs.Statements.{StorePromises};
ghost use Rattle.store.specs.Witness.{NotVacuous};

use moldudp64_writer::lengths::add_up;
use packing::size::room;
use wire::kinds::{SESSION_SIZE, SequenceNumber};
use wire::refusal;
use wire::refusal::Refusal;

// A refused request's number, behind 44: what a store is lent with is looked at first.
fn refuse(refused: Refusal, lengths: &[u16], joined: &[u8]) -> Refusal
    ensures { result ≡ refusal_behind refused lengths.now joined.now }
{
    if add_up(lengths, joined) {
        refused
    } else {
        refusal::LENGTHS_DIFFER
    }
}

// Answers a request of any bytes with one packet of at most a size: from the wanted number on, the most whole messages
// that fit, up to the count wanted. All lengths are gone through once, and those that are answered with again when they
// are written.
pub fn answer(
    out: &mut [u8],
    session: [u8; SESSION_SIZE],
    first: SequenceNumber,
    lengths: &[u16],
    joined: &[u8],
    size: usize,
    request: &[u8],
) -> Result<usize, Refusal>
    ensures writes { Writes result out.old out.new
        (answer_ground (store session first.0 lengths.now joined.now) size
        request.now)
        0
        (answer_bytes (store session first.0 lengths.now joined.now) size
        request.now) }
    ensures promises { StorePromises }
    ensures not_vacuous { NotVacuous }
{
    setting::check(first, lengths.len(), size)?;
    let asked = match ask::read(session, first, lengths.len(), request) {
        Ok(asked) => asked,
        Err(refused) => return Err(refuse(refused, lengths, joined)),
    };
    let picked = pick::pick(lengths, joined.len(), asked.place, asked.count, room(size));
    let picked = picked.ok_or(refusal::LENGTHS_DIFFER)?;
    if picked.count == 0 {
        return Err(refusal::MESSAGE_LONG);
    }
    send::send(out, session, lengths, joined, asked, picked)
}
