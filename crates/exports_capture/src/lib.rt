// Captures for hosts in other languages. `include/eiderwagon.h` says what each function takes and answers.
#![tactic(auto, using(crate::proofs::Rules::exported))]

ghost use Rattle.std.specs.Prelude.{◌≡◌, [], ◌∷◌, ◌≤◌, length, ltb};
ghost use Rattle.capture.specs.Reading.{text_of};
ghost use Rattle.capture.specs.Whole.{capture_text};
ghost use Rattle.host_answers.specs.Answers.{short, RefusesOnly, AnswersWriting};
ghost use Rattle.host_capture.specs.Reading.{reading_size, reading_in};
ghost use Rattle.exports_capture.specs.Calls.{StartsReading, FeedsReading, FinishesReading, ReadingHandsOn};
ghost use Rattle.exports_capture.specs.Calls.{IsSized};

use capture::reading::Reading;
use capture::whole;
use early_holding::holding::SLOT_BYTES;
use host_answers::{SHORT, WRITTEN_WORDS};
use host_capture::{LENGTHS_AT, LENGTHS_TO};
use wire::refusal;

// The words of a feed, and the refusal of slots that aren't of their size.
const FED_WORDS: usize = 2;

const BAD_SLOTS: u32 = refusal::BAD_SETTING.number as u32;

// Starts the reading of a capture in pieces.
#[unsafe(no_mangle)]
pub extern "C" fn eiderwagon_capture_start(state: &mut [u8]) -> u32
    ensures starts_reading { StartsReading result state.old state.new }
    ensures refuses { RefusesOnly result (41 ∷ []) }
{
    host_capture::write_fresh(state, 0, Reading::new())
}

// Feeds some bytes, after which more may come: how many were used, and whether nothing that follows changes the report.
// All that may be refused is looked at first: the receiver's lengths, in the state, and its slots change as it is fed.
#[unsafe(no_mangle)]
pub extern "C" fn eiderwagon_capture_feed(
    state: &mut [u8],
    slots: &mut [u8],
    bytes: &[u8],
    words: &mut [u64],
) -> u32
    ensures feeds_reading { FeedsReading result state.old state.new slots.old slots.new
        bytes.now words.old words.new }
    ensures refuses { RefusesOnly result (19 ∷ 41 ∷ []) }
    ensures hands_on { ReadingHandsOn }
{
    if state.len() < host_capture::SIZE {
        return SHORT;
    }
    if slots.len() != SLOT_BYTES {
        return BAD_SLOTS;
    }
    if words.len() < FED_WORDS {
        return SHORT;
    }
    feed(state, slots, bytes, words)
}

// Feeds with memory of its size.
fn feed(state: &mut [u8], slots: &mut [u8], bytes: &[u8], words: &mut [u64]) -> u32
    requires sized { IsSized state.old slots.old }
    requires in_bounds { 2 ≤ length words.old }
    ensures feeds_reading { FeedsReading result state.old state.new slots.old slots.new
        bytes.now words.old words.new }
    ensures none { result ≡ 0 }
{
    let start = host_capture::read(state);
    let fed = start.feed(&mut state[LENGTHS_AT.0..LENGTHS_TO], slots, bytes);
    let over = fed.reading.is_over();
    let values = [fed.used as u64, host_answers::flag(over)];
    let code = host_answers::answer(words, Ok(values));
    if fed.used != 0 || over {
        host_capture::write(state, fed.reading);
    }
    code
}

// Feeds the last bytes.
#[unsafe(no_mangle)]
pub extern "C" fn eiderwagon_capture_finish(state: &mut [u8], slots: &mut [u8], bytes: &[u8]) -> u32
    ensures finishes_reading { FinishesReading result state.old state.new slots.old slots.new
        bytes.now }
    ensures refuses { RefusesOnly result (19 ∷ 41 ∷ []) }
{
    if state.len() < host_capture::SIZE {
        return SHORT;
    }
    if slots.len() != SLOT_BYTES {
        return BAD_SLOTS;
    }
    let start = host_capture::read(state);
    let finished = start.finish(&mut state[LENGTHS_AT.0..LENGTHS_TO], slots, bytes);
    host_capture::write(state, finished);
    0
}

// Writes what was read so far.
#[unsafe(no_mangle)]
pub extern "C" fn eiderwagon_capture_write(state: &[u8], out: &mut [u8], words: &mut [u64]) -> u32
    ensures answers_writing { AnswersWriting result words.old words.new out.old
        out.new (short (ltb (length state.now) reading_size))
        (text_of (reading_in state.now)) }
    ensures refuses { RefusesOnly result (41 ∷ []) }
{
    if state.len() < host_capture::SIZE {
        return SHORT;
    }
    let from = host_answers::lent_from(words.len() < WRITTEN_WORDS, out.len());
    let written = host_capture::read(state).write(&mut out[from..]);
    host_answers::answer_written(words, false, written)
}

// Writes the report of a whole capture.
#[unsafe(no_mangle)]
pub extern "C" fn eiderwagon_capture_report(
    capture: &[u8],
    out: &mut [u8],
    words: &mut [u64],
) -> u32
    ensures answers_writing { AnswersWriting result words.old words.new out.old
        out.new 0 (capture_text capture.now) }
    ensures refuses { RefusesOnly result (41 ∷ []) }
{
    let from = host_answers::lent_from(words.len() < WRITTEN_WORDS, out.len());
    let written = whole::report(capture, &mut out[from..]);
    host_answers::answer_written(words, false, written)
}
