// A reading of what is missing from a capture, as a host keeps it. The words of the edges are lent beside it.
#![tactic(auto, using(crate::proofs::Rules::places, crate::proofs::Rules::readings))]

ghost use Rattle.std.specs.Prelude.{◌≡◌, ◌∷◌, ◌≤◌, length, ltb};
ghost use Rattle.wire.specs.Output.{put};
ghost use Rattle.missing_ranges.specs.Notes.{missing};
ghost use Rattle.host_answers.specs.Answers.{or_else, short};
ghost use Rattle.host_states.specs.States.{StatePromises, on_code};
ghost use Rattle.host_missing.specs.Reading.{highest_at, missing_size, place_of, stage_byte, left_of, range_bytes};
ghost use Rattle.host_missing.specs.Reading.{missing_bytes, refused_reading, reading_in, KeepsMissing};
ghost use Rattle.host_missing.specs.Reading.{LaysMissing};

use capture_events::place::Place;
use capture_records::records;
use host_states::{CODE_AT, CODE_SIZE, MISSING, PHASE_SIZE, little};
use missing_capture::reading::Reading;
use missing_ranges::ranges::Missing;
use missing_records::Notes;
use wire::kinds::{ByteOffset, NUMBER_SIZE, SESSION_SIZE, SequenceNumber};
use wire::{output, parts};

// Bytes of a count.
const COUNT_SIZE: usize = 8;

// Its stage stands behind its code, then its session, the highest next number, how many records may still be read, how
// many ranges have both edges, and whether they are refused.
const STAGE_AT: ByteOffset = ByteOffset(CODE_SIZE);

const SESSION_AT: ByteOffset = ByteOffset(CODE_SIZE + PHASE_SIZE);

const HIGHEST_AT: ByteOffset = ByteOffset(CODE_SIZE + PHASE_SIZE + SESSION_SIZE);

const BEFORE: usize = CODE_SIZE + PHASE_SIZE + SESSION_SIZE + NUMBER_SIZE;

const LEFT_AT: ByteOffset = ByteOffset(BEFORE);

const CLOSED_AT: ByteOffset = ByteOffset(BEFORE + COUNT_SIZE);

const REFUSED_AT: ByteOffset = ByteOffset(BEFORE + 2 * COUNT_SIZE);

// Bytes of a reading.
pub const SIZE: usize = BEFORE + 2 * COUNT_SIZE + 1;

// The stages by number: settings come next, records do, it is done, or its settings are refused.
const SETTINGS: u8 = 1;

const RECORDS: u8 = 2;

const DONE: u8 = 3;

const REFUSED: u8 = 0;

// What is open takes records by one stage, so many at most, and settings by every other one; what isn't is done by one,
// and else its settings are refused. A report's stage has no count, so that it has functions of its own.
fn place_of(opened: bool, stage: u8, left: u32) -> Place
    ensures { result ≡ place_of opened stage left }
{
    if opened {
        if stage == RECORDS {
            Place::Records { left }
        } else {
            Place::Settings
        }
    } else if stage == DONE {
        Place::Done
    } else {
        Place::Refused
    }
}

fn stage_byte(place: Place) -> u8
    ensures { result ≡ stage_byte place }
{
    match place {
        Place::Settings => SETTINGS,
        Place::Records { .. } => RECORDS,
        Place::Done => DONE,
        Place::Refused => REFUSED,
    }
}

// How many records may still be read.
fn left_of(place: Place) -> u32
    ensures { result ≡ left_of place }
{
    match place {
        Place::Records { left } => left,
        _ => 0,
    }
}

// Too few bytes: settings refused, and nothing noted.
fn refused() -> Reading
    ensures { result ≡ refused_reading }
{
    Reading {
        place: Place::Refused,
        ..Reading::new()
    }
}

// The reading in some bytes.
pub fn read(state: &[u8]) -> Reading
    ensures { result ≡ reading_in state.now }
{
    if state.len() < SIZE {
        return refused();
    }
    let session_at = SESSION_AT.0;
    let left = records::at_most(little::get64(state, LEFT_AT));
    Reading {
        place: place_of(
            host_states::is_open(state, MISSING),
            parts::byte(state, STAGE_AT),
            left,
        ),
        notes: Notes {
            session: parts::first(&state[session_at..]),
            missing: Missing {
                refused: parts::byte(state, REFUSED_AT) != 0,
                closed: little::get64(state, CLOSED_AT) as usize,
                highest: SequenceNumber(little::get64(state, HIGHEST_AT)),
            },
        },
    }
}

// Lays the code, the stage and the session, where there is room for a reading.
fn put_head(state: &mut [u8], first: u8, stage: u8, session: [u8; SESSION_SIZE])
    requires { missing_size ≤ length state.old }
    ensures { state.new ≡ put state.old 0 (first ∷ stage ∷ session) }
{
    output::lay(state, CODE_AT, &[first, stage]);
    output::lay(state, SESSION_AT, &session);
}

// Lays the numbers behind them.
fn put_ranges(state: &mut [u8], left: u32, missing: Missing)
    requires { missing_size ≤ length state.old }
    ensures { state.new ≡ put state.old highest_at (range_bytes left missing) }
{
    little::put64(state, HIGHEST_AT, missing.highest.0);
    little::put64(state, LEFT_AT, u64::from(left));
    little::put64(state, CLOSED_AT, missing.closed as u64);
    output::lay(state, REFUSED_AT, &[u8::from(missing.refused)]);
}

// Lays all fields of a reading where there is room for them.
fn put_fields(state: &mut [u8], reading: Reading)
    requires { missing_size ≤ length state.old }
    ensures { LaysMissing state.old state.new reading }
{
    let Reading { place, notes } = reading;
    let first = host_states::open_byte(MISSING, !place.is_over());
    put_head(state, first, stage_byte(place), notes.session);
    put_ranges(state, left_of(place), notes.missing);
}

// Lays a reading, where the code is 0 and there is room: else the code, or 41.
pub fn write(state: &mut [u8], code: u32, reading: Reading) -> u32
    ensures value { result ≡ or_else code (short (ltb (length state.old) missing_size)) }
    ensures keeps { KeepsMissing (on_code result) state.old state.new reading }
    ensures promises { StatePromises KeepsMissing missing_size missing_bytes }
{
    let kept = host_states::with_room(code, state.len(), SIZE);
    if kept == 0 {
        put_fields(state, reading);
    }
    kept
}
