// What is missing from a capture, for hosts in other languages. `include/eiderwagon.h` says what each function takes
// and answers.
#![tactic(auto, using(crate::proofs::Rules::lending, crate::proofs::Rules::listing))]

ghost use Rattle.std.specs.Prelude.{◌≡◌, [], ◌∷◌, ◌≤◌, length, is_some};
ghost use Rattle.wire.specs.Words.{refused_by};
ghost use Rattle.missing_ranges.specs.Listing.{first_of, last_of};
ghost use Rattle.host_answers.specs.Answers.{flag, RefusesOnly};
ghost use Rattle.host_missing.specs.Reading.{reading_in};
ghost use Rattle.exports_missing.specs.Calls.{edges_ladder, StartsMissing, FeedsMissing, FinishesMissing};
ghost use Rattle.exports_missing.specs.Calls.{is_opened, CountsMissing, ListsRange, WritesMissing, MissingHandsOn};
ghost use Rattle.exports_missing.specs.Calls.{listed_of};

use capture_events::place::Place;
use host_answers::{SHORT, WRITTEN_WORDS};
use missing_capture::reading::Reading;
use missing_ranges::listing::Listed;
use missing_ranges::ranges::{Missing, ROOM};
use wire::kinds::SequenceNumber;
use wire::refusal;
use wire::refusal::Refusal;

// The words of a feed.
const FED_WORDS: usize = 2;

// The refusal of a state that is too short, and then that of edges that aren't as many words as they are to be.
fn check(state: &[u8], edges: &[u64]) -> Result<(), Refusal>
    ensures { result ≡ refused_by (edges_ladder state.now edges.now) }
{
    if state.len() < host_missing::SIZE {
        return Err(refusal::OUTPUT_SHORT);
    }
    if edges.len() != ROOM {
        return Err(refusal::BAD_SETTING);
    }
    Ok(())
}

// Starts the reading of a capture in pieces.
#[unsafe(no_mangle)]
pub extern "C" fn eiderwagon_missing_start(state: &mut [u8]) -> u32
    ensures starts_missing { StartsMissing result state.old state.new }
    ensures refuses { RefusesOnly result (41 ∷ []) }
{
    host_missing::write(state, 0, Reading::new())
}

// Feeds some bytes, after which more may come: how many were used, and whether nothing that follows changes what is
// missing. All that may be refused is looked at first: the edges change as it is fed.
#[unsafe(no_mangle)]
pub extern "C" fn eiderwagon_missing_feed(
    state: &mut [u8],
    edges: &mut [u64],
    bytes: &[u8],
    words: &mut [u64],
) -> u32
    ensures feeds_missing { FeedsMissing result state.old state.new edges.old edges.new
        bytes.now words.old words.new }
    ensures refuses { RefusesOnly result (19 ∷ 41 ∷ []) }
    ensures hands_on { MissingHandsOn }
{
    if let Err(refused) = check(state, edges) {
        return u32::from(refused.number);
    }
    if words.len() < FED_WORDS {
        return SHORT;
    }
    feed(state, edges, bytes, words)
}

// Feeds with memory that isn't refused.
fn feed(state: &mut [u8], edges: &mut [u64], bytes: &[u8], words: &mut [u64]) -> u32
    requires edges_value { edges_ladder state.old edges.old ≡ 0 }
    requires in_bounds { 2 ≤ length words.old }
    ensures feeds_missing { FeedsMissing result state.old state.new edges.old edges.new
        bytes.now words.old words.new }
    ensures none { result ≡ 0 }
{
    let start = host_missing::read(state);
    let fed = start.feed(edges, bytes);
    let over = fed.reading.is_over();
    let values = [fed.used as u64, host_answers::flag(over)];
    let code = host_answers::answer(words, Ok(values));
    if fed.used != 0 || over {
        return host_missing::write(state, code, fed.reading);
    }
    code
}

// Feeds the last bytes.
#[unsafe(no_mangle)]
pub extern "C" fn eiderwagon_missing_finish(
    state: &mut [u8],
    edges: &mut [u64],
    bytes: &[u8],
) -> u32
    ensures finishes_missing { FinishesMissing result state.old state.new edges.old
        edges.new bytes.now }
    ensures refuses { RefusesOnly result (19 ∷ 41 ∷ []) }
{
    if let Err(refused) = check(state, edges) {
        return u32::from(refused.number);
    }
    let start = host_missing::read(state);
    let finished = start.finish(edges, bytes);
    host_missing::write(state, 0, finished)
}

// Whether settings were read.
fn is_opened(place: Place) -> bool
    ensures { result ≡ is_opened place }
{
    matches!(place, Place::Records { .. } | Place::Done)
}

// The ranges that are listed: refused ones while no settings were read.
fn listed(state: &[u8]) -> Missing
    ensures { result ≡ listed_of (reading_in state.now) }
{
    let reading = host_missing::read(state);
    if is_opened(reading.place) {
        return reading.notes.missing;
    }
    Missing {
        refused: true,
        closed: 0,
        highest: SequenceNumber(0),
    }
}

// Whether ranges are listed, how many, and how many numbers are missing.
#[unsafe(no_mangle)]
pub extern "C" fn eiderwagon_missing_count(state: &[u8], edges: &[u64], words: &mut [u64]) -> u32
    ensures counts_missing { CountsMissing result state.now edges.now words.old
        words.new }
    ensures refuses { RefusesOnly result (19 ∷ 41 ∷ []) }
{
    if let Err(refused) = check(state, edges) {
        return u32::from(refused.number);
    }
    let missing = listed(state);
    let listing = host_answers::flag(missing.is_usable(edges));
    let count = missing.count(edges);
    let values = [listing, count as u64, missing.total(edges)];
    host_answers::answer(words, Ok(values))
}

// Whether a range is there, and its numbers: 0 and 0 where it isn't.
fn range_values(found: Option<Listed>) -> [u64; 3]
    ensures { result ≡ flag (is_some found) ∷ first_of found ∷ last_of found ∷ [] }
{
    match found {
        Some(range) => [1, range.from.0, range.to.0],
        None => [0, 0, 0],
    }
}

// The range at a place.
#[unsafe(no_mangle)]
pub extern "C" fn eiderwagon_missing_range(
    state: &[u8],
    edges: &[u64],
    place: u64,
    words: &mut [u64],
) -> u32
    ensures lists_range { ListsRange result state.now edges.now place words.old
        words.new }
    ensures refuses { RefusesOnly result (19 ∷ 41 ∷ []) }
{
    if let Err(refused) = check(state, edges) {
        return u32::from(refused.number);
    }
    let found = listed(state).range(edges, place as usize);
    host_answers::answer(words, Ok(range_values(found)))
}

// Writes what is missing so far, into an output with room for any text.
#[unsafe(no_mangle)]
pub extern "C" fn eiderwagon_missing_write(
    state: &[u8],
    edges: &[u64],
    out: &mut [u8],
    words: &mut [u64],
) -> u32
    ensures writes_missing { WritesMissing result state.now edges.now out.old out.new
        words.old words.new }
    ensures refuses { RefusesOnly result (19 ∷ 41 ∷ []) }
{
    if let Err(refused) = check(state, edges) {
        return u32::from(refused.number);
    }
    if words.len() < WRITTEN_WORDS {
        return SHORT;
    }
    let written = host_missing::read(state).write(edges, out);
    host_answers::answer_written(words, false, written)
}
