// A reading of a capture, as a host keeps it. The bytes of its receiver stand in it, and are those of a receiver that
// keeps early messages: its lengths are lent from there.
#![tactic(auto, using(crate::proofs::Rules::readings, crate::proofs::Rules::stages))]

ghost use Rattle.std.specs.Prelude.{◌≡◌, ◌≤◌, [], ◌∷◌, length, ltb};
ghost use Rattle.wire.specs.Output.{put};
ghost use Rattle.host_answers.specs.Answers.{or_else, short};
ghost use Rattle.host_states.specs.States.{StatePromises, on_code};
ghost use Rattle.host_early.specs.Early.{head_bytes, no_lengths};
ghost use Rattle.host_capture.specs.Reading.{receiver_at, reading_lengths_at, reading_size, records_at};
ghost use Rattle.host_capture.specs.Reading.{stage_of, stage_byte, count_bytes, tally_in, refused_reading};
ghost use Rattle.host_capture.specs.Reading.{kept_reading, reading_bytes, reading_in, KeepsReading, LaysReading};

use capture::reading::{Reading, Stage};
use capture_records::records;
use capture_tally::report::Report;
use capture_tally::tally::Tally;
use early_holding::holding::{EarlyReceiver, LENGTH_BYTES};
use host_states::{CODE_AT, CODE_SIZE, PHASE_SIZE, READING, little};
use wire::kinds::ByteOffset;
use wire::{output, parts};

// Bytes of a count, and of all that stands before the counts.
const TALLY_SIZE: usize = 8;

const BEFORE: usize = CODE_SIZE + PHASE_SIZE + host_early::SIZE + TALLY_SIZE;

// Its stage stands behind its code, then its receiver, how many records were read, and its five counts.
const STAGE_AT: ByteOffset = ByteOffset(CODE_SIZE);

const RECEIVER_AT: ByteOffset = ByteOffset(CODE_SIZE + PHASE_SIZE);

// The lengths that are lent, from one place to another.
pub const LENGTHS_AT: ByteOffset = ByteOffset(CODE_SIZE + PHASE_SIZE + host_early::LENGTHS_AT.0);

pub const LENGTHS_TO: usize = CODE_SIZE + PHASE_SIZE + host_early::SIZE;

const RECORDS_AT: ByteOffset = ByteOffset(CODE_SIZE + PHASE_SIZE + host_early::SIZE);

const DELIVERED_AT: ByteOffset = ByteOffset(BEFORE);

const OLD_AT: ByteOffset = ByteOffset(BEFORE + TALLY_SIZE);

const QUIET_AT: ByteOffset = ByteOffset(BEFORE + 2 * TALLY_SIZE);

const ASKED_AT: ByteOffset = ByteOffset(BEFORE + 3 * TALLY_SIZE);

const REFUSED_AT: ByteOffset = ByteOffset(BEFORE + 4 * TALLY_SIZE);

// Bytes of a reading.
pub const SIZE: usize = BEFORE + 5 * TALLY_SIZE;

// The stages by number: settings come next, records do, it is done, or its settings are refused.
const SETTINGS: u8 = 1;

const RECORDS: u8 = 2;

const DONE: u8 = 3;

const REFUSED: u8 = 0;

// What is open takes records by one stage, and settings by every other one; what isn't is done by one, and else its
// settings are refused.
fn stage_of(opened: bool, stage: u8) -> Stage
    ensures { result ≡ stage_of opened stage }
{
    if opened {
        if stage == RECORDS {
            Stage::Records
        } else {
            Stage::Settings
        }
    } else if stage == DONE {
        Stage::Done
    } else {
        Stage::Refused
    }
}

fn stage_byte(stage: Stage) -> u8
    ensures { result ≡ stage_byte stage }
{
    match stage {
        Stage::Settings => SETTINGS,
        Stage::Records => RECORDS,
        Stage::Done => DONE,
        Stage::Refused => REFUSED,
    }
}

// Too few bytes: settings refused, and nothing read.
fn refused() -> Reading
    ensures { result ≡ refused_reading }
{
    Reading {
        stage: Stage::Refused,
        ..Reading::new()
    }
}

// The five counts in some bytes.
fn read_tally(state: &[u8]) -> Tally
    ensures { result ≡ tally_in state.now }
{
    Tally {
        delivered: little::get64(state, DELIVERED_AT),
        old: little::get64(state, OLD_AT),
        quiet: little::get64(state, QUIET_AT),
        asked: little::get64(state, ASKED_AT),
        refused: little::get64(state, REFUSED_AT),
    }
}

// The reading in some bytes.
pub fn read(state: &[u8]) -> Reading
    ensures { result ≡ reading_in state.now }
{
    if state.len() < SIZE {
        return refused();
    }
    let receiver_at = RECEIVER_AT.0;
    Reading {
        stage: stage_of(
            host_states::is_open(state, READING),
            parts::byte(state, STAGE_AT),
        ),
        report: Report {
            receiver: host_early::read(&state[receiver_at..]),
            records: records::at_most(little::get64(state, RECORDS_AT)),
            tally: read_tally(state),
        },
    }
}

// Lays the records and the five counts, where there is room for them.
fn put_counts(state: &mut [u8], records: u64, tally: Tally)
    requires { reading_size ≤ length state.old }
    ensures { state.new ≡ put state.old records_at (count_bytes records tally) }
{
    little::put64(state, RECORDS_AT, records);
    little::put64(state, DELIVERED_AT, tally.delivered);
    little::put64(state, OLD_AT, tally.old);
    little::put64(state, QUIET_AT, tally.quiet);
    little::put64(state, ASKED_AT, tally.asked);
    little::put64(state, REFUSED_AT, tally.refused);
}

// Lays the code and the stage, where there is room for a reading.
fn put_head(state: &mut [u8], first: u8, stage: u8)
    requires { reading_size ≤ length state.old }
    ensures { state.new ≡ put state.old 0 (first ∷ stage ∷ []) }
{
    output::lay(state, CODE_AT, &[first, stage]);
}

// Lays the receiver but for its lengths, where there is room for a reading.
fn put_receiver(state: &mut [u8], receiver: EarlyReceiver)
    requires { reading_size ≤ length state.old }
    ensures { state.new ≡ put state.old receiver_at (head_bytes receiver) }
{
    let at = RECEIVER_AT.0;
    host_early::write(&mut state[at..], receiver);
}

// Lays a reading whose lengths stand there already.
pub fn write(state: &mut [u8], reading: Reading)
    ensures { LaysReading state.old state.new reading }
{
    if state.len() < SIZE {
        return;
    }
    let Reading { stage, report } = reading;
    let first = host_states::open_byte(READING, !reading.is_over());
    put_head(state, first, stage_byte(stage));
    put_receiver(state, report.receiver);
    put_counts(state, u64::from(report.records), report.tally);
}

// Lays lengths of zero, where there is room for a reading.
fn clear_lengths(state: &mut [u8])
    requires { reading_size ≤ length state.old }
    ensures { state.new ≡ put state.old reading_lengths_at no_lengths }
{
    let none = [0u8; LENGTH_BYTES];
    output::lay(state, LENGTHS_AT, &none);
}

// Lays a reading with no lengths, where the code is 0 and there is room: else the code, or 41.
pub fn write_fresh(state: &mut [u8], code: u32, reading: Reading) -> u32
    ensures value { result ≡ or_else code (short (ltb (length state.old) reading_size)) }
    ensures keeps { KeepsReading (on_code result) state.old state.new
        (kept_reading reading no_lengths) }
    ensures promises { StatePromises KeepsReading reading_size reading_bytes }
{
    let kept = host_states::with_room(code, state.len(), SIZE);
    if kept == 0 {
        clear_lengths(state);
        write(state, reading);
    }
    kept
}
