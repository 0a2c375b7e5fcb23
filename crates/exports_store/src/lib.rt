// A branch store for hosts in other languages. `include/eiderwagon.h` says what the function takes and answers.
// Document 02 has no ground for a session of another size: it is 41 here.
#![tactic(auto, using(crate::proofs::Rules::answers))]

ghost use Rattle.std.specs.Prelude.{[], ◌∷◌};
ghost use Rattle.wire.specs.Bounds.{session_size};
ghost use Rattle.wire.specs.Parts.{first_bytes};
ghost use Rattle.store.specs.Store.{store, answer_bytes};
ghost use Rattle.host_answers.specs.Answers.{RefusesOnly, AnswersWriting};
ghost use Rattle.exports_store.specs.Answer.{named_store};

use host_answers::WRITTEN_WORDS;
use wire::kinds::{SESSION_SIZE, SequenceNumber};
use wire::{parts, refusal};

// The last refusal that needs no name: those behind it in the ladder have larger numbers, or are 41 themselves.
const LAST_OF_REQUEST: u8 = refusal::REQUEST_COUNT.number;

// Answers a request with one packet of at most a size.
#[unsafe(no_mangle)]
pub extern "C" fn eiderwagon_store_answer(
    session: &[u8],
    first: u64,
    lengths: &[u16],
    joined: &[u8],
    size: u64,
    request: &[u8],
    out: &mut [u8],
    words: &mut [u64],
) -> u32
    ensures answers_writing { AnswersWriting result words.old words.new out.old
        out.new
        (named_store session.now
        (store (first_bytes session_size session.now) first lengths.now
        joined.now) size request.now)
        (answer_bytes (store (first_bytes session_size session.now) first lengths.now
        joined.now) size request.now) }
    ensures refuses { RefusesOnly result (19 ∷ 44 ∷ 47 ∷ 13 ∷ 48 ∷ 53 ∷ 51 ∷ 52 ∷ 41 ∷ []) }
{
    let unnamed = session.len() != SESSION_SIZE;
    let from = host_answers::lent_from(unnamed | (words.len() < WRITTEN_WORDS), out.len());
    let name = parts::first(session);
    let written = store::answer(
        &mut out[from..],
        name,
        SequenceNumber(first),
        lengths,
        joined,
        size as usize,
        request,
    );
    // without a name it is 41 in place of every refusal behind the request's own
    if unnamed {
        let nameless = host_answers::behind_stateless(true, LAST_OF_REQUEST, written);
        return host_answers::answer_written(words, true, nameless);
    }
    host_answers::answer_written(words, false, written)
}
