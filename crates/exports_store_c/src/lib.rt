// A branch store for hosts in other languages. `include/eiderwagon.h` says what the function takes and answers.
// Document 02 has no ground for a session of another size: it is 41 here.
// Made by tools/library.py from the crate exports_store, whose functions it calls.
#![tactic(auto)]

ghost use Rattle.std.specs.Prelude.{[], ◌∷◌};
ghost use Rattle.wire.specs.Bounds.{session_size};
ghost use Rattle.wire.specs.Parts.{first_bytes};
ghost use Rattle.store.specs.Store.{store, answer_bytes};
ghost use Rattle.host_answers.specs.Answers.{RefusesOnly, AnswersWriting};
ghost use Rattle.exports_store.specs.Answer.{named_store};

// Answers a request with one packet of at most a size.
#[unsafe(no_mangle)]
pub extern "C" fn eiderwagon_store_answer(
    session: &[u8],
    first: u64,
    lengths: &[u16],
    joined: &[u8],
    size: u64,
    request: &[u8],
    out: &mut [u8],
    words: &mut [u64],
) -> u32
    ensures answers_writing { AnswersWriting result words.old words.new out.old
        out.new
        (named_store session.now
        (store (first_bytes session_size session.now) first lengths.now
        joined.now) size request.now)
        (answer_bytes (store (first_bytes session_size session.now) first lengths.now
        joined.now) size request.now) }
    ensures refuses { RefusesOnly result (19 ∷ 44 ∷ 47 ∷ 13 ∷ 48 ∷ 53 ∷ 51 ∷ 52 ∷ 41 ∷ []) }
{
    exports_store::eiderwagon_store_answer(
        session, first, lengths, joined, size, request, out, words,
    )
}
