// What is missing from a capture, for hosts in other languages. `include/eiderwagon.h` says what each function takes
// and answers.
// Made by tools/library.py from the crate exports_missing, whose functions it calls.
#![tactic(auto)]

ghost use Rattle.std.specs.Prelude.{[], ◌∷◌};
ghost use Rattle.host_answers.specs.Answers.{RefusesOnly};
ghost use Rattle.exports_missing.specs.Calls.{StartsMissing, FeedsMissing, FinishesMissing, CountsMissing, ListsRange};
ghost use Rattle.exports_missing.specs.Calls.{WritesMissing, MissingHandsOn};

// Starts the reading of a capture in pieces.
#[unsafe(no_mangle)]
pub extern "C" fn eiderwagon_missing_start(state: &mut [u8]) -> u32
    ensures starts_missing { StartsMissing result state.old state.new }
    ensures refuses { RefusesOnly result (41 ∷ []) }
{
    exports_missing::eiderwagon_missing_start(state)
}

// Feeds some bytes, after which more may come: how many were used, and whether nothing that follows changes what is
// missing. All that may be refused is looked at first: the edges change as it is fed.
#[unsafe(no_mangle)]
pub extern "C" fn eiderwagon_missing_feed(
    state: &mut [u8],
    edges: &mut [u64],
    bytes: &[u8],
    words: &mut [u64],
) -> u32
    ensures feeds_missing { FeedsMissing result state.old state.new edges.old edges.new
        bytes.now words.old words.new }
    ensures refuses { RefusesOnly result (19 ∷ 41 ∷ []) }
    ensures hands_on { MissingHandsOn }
{
    exports_missing::eiderwagon_missing_feed(state, edges, bytes, words)
}

// Feeds the last bytes.
#[unsafe(no_mangle)]
pub extern "C" fn eiderwagon_missing_finish(
    state: &mut [u8],
    edges: &mut [u64],
    bytes: &[u8],
) -> u32
    ensures finishes_missing { FinishesMissing result state.old state.new edges.old
        edges.new bytes.now }
    ensures refuses { RefusesOnly result (19 ∷ 41 ∷ []) }
{
    exports_missing::eiderwagon_missing_finish(state, edges, bytes)
}

// Whether ranges are listed, how many, and how many numbers are missing.
#[unsafe(no_mangle)]
pub extern "C" fn eiderwagon_missing_count(state: &[u8], edges: &[u64], words: &mut [u64]) -> u32
    ensures counts_missing { CountsMissing result state.now edges.now words.old
        words.new }
    ensures refuses { RefusesOnly result (19 ∷ 41 ∷ []) }
{
    exports_missing::eiderwagon_missing_count(state, edges, words)
}

// The range at a place.
#[unsafe(no_mangle)]
pub extern "C" fn eiderwagon_missing_range(
    state: &[u8],
    edges: &[u64],
    place: u64,
    words: &mut [u64],
) -> u32
    ensures lists_range { ListsRange result state.now edges.now place words.old
        words.new }
    ensures refuses { RefusesOnly result (19 ∷ 41 ∷ []) }
{
    exports_missing::eiderwagon_missing_range(state, edges, place, words)
}

// Writes what is missing so far, into an output with room for any text.
#[unsafe(no_mangle)]
pub extern "C" fn eiderwagon_missing_write(
    state: &[u8],
    edges: &[u64],
    out: &mut [u8],
    words: &mut [u64],
) -> u32
    ensures writes_missing { WritesMissing result state.now edges.now out.old out.new
        words.old words.new }
    ensures refuses { RefusesOnly result (19 ∷ 41 ∷ []) }
{
    exports_missing::eiderwagon_missing_write(state, edges, out, words)
}
