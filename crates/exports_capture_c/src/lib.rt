// Captures for hosts in other languages. `include/eiderwagon.h` says what each function takes and answers.
// Made by tools/library.py from the crate exports_capture, whose functions it calls.
#![tactic(auto)]

ghost use Rattle.std.specs.Prelude.{[], ◌∷◌, length, ltb};
ghost use Rattle.capture.specs.Reading.{text_of};
ghost use Rattle.capture.specs.Whole.{capture_text};
ghost use Rattle.host_answers.specs.Answers.{short, RefusesOnly, AnswersWriting};
ghost use Rattle.host_capture.specs.Reading.{reading_size, reading_in};
ghost use Rattle.exports_capture.specs.Calls.{StartsReading, FeedsReading, FinishesReading, ReadingHandsOn};

// Starts the reading of a capture in pieces.
#[unsafe(no_mangle)]
pub extern "C" fn eiderwagon_capture_start(state: &mut [u8]) -> u32
    ensures starts_reading { StartsReading result state.old state.new }
    ensures refuses { RefusesOnly result (41 ∷ []) }
{
    exports_capture::eiderwagon_capture_start(state)
}

// Feeds some bytes, after which more may come: how many were used, and whether nothing that follows changes the report.
// All that may be refused is looked at first: the receiver's lengths, in the state, and its slots change as it is fed.
#[unsafe(no_mangle)]
pub extern "C" fn eiderwagon_capture_feed(
    state: &mut [u8],
    slots: &mut [u8],
    bytes: &[u8],
    words: &mut [u64],
) -> u32
    ensures feeds_reading { FeedsReading result state.old state.new slots.old slots.new
        bytes.now words.old words.new }
    ensures refuses { RefusesOnly result (19 ∷ 41 ∷ []) }
    ensures hands_on { ReadingHandsOn }
{
    exports_capture::eiderwagon_capture_feed(state, slots, bytes, words)
}

// Feeds the last bytes.
#[unsafe(no_mangle)]
pub extern "C" fn eiderwagon_capture_finish(state: &mut [u8], slots: &mut [u8], bytes: &[u8]) -> u32
    ensures finishes_reading { FinishesReading result state.old state.new slots.old slots.new
        bytes.now }
    ensures refuses { RefusesOnly result (19 ∷ 41 ∷ []) }
{
    exports_capture::eiderwagon_capture_finish(state, slots, bytes)
}

// Writes what was read so far.
#[unsafe(no_mangle)]
pub extern "C" fn eiderwagon_capture_write(state: &[u8], out: &mut [u8], words: &mut [u64]) -> u32
    ensures answers_writing { AnswersWriting result words.old words.new out.old
        out.new (short (ltb (length state.now) reading_size))
        (text_of (reading_in state.now)) }
    ensures refuses { RefusesOnly result (41 ∷ []) }
{
    exports_capture::eiderwagon_capture_write(state, out, words)
}

// Writes the report of a whole capture.
#[unsafe(no_mangle)]
pub extern "C" fn eiderwagon_capture_report(
    capture: &[u8],
    out: &mut [u8],
    words: &mut [u64],
) -> u32
    ensures answers_writing { AnswersWriting result words.old words.new out.old
        out.new 0 (capture_text capture.now) }
    ensures refuses { RefusesOnly result (41 ∷ []) }
{
    exports_capture::eiderwagon_capture_report(capture, out, words)
}
