// The progress of a transmitter, as a host keeps it.
#![tactic(auto, using(crate::proofs::Rules::progresses))]

ghost use Rattle.std.specs.Prelude.{◌≡◌, ◌≤◌, length, ltb};
ghost use Rattle.transmitter.specs.Turns.{progress};
ghost use Rattle.host_answers.specs.Answers.{or_else, short};
ghost use Rattle.host_states.specs.States.{Lays, StatePromises, on_code};
ghost use Rattle.host_transmitter.specs.Progress.{progress_size, progress_bytes, progress_in, KeepsProgress};

use host_states::{CODE_AT, CODE_SIZE, TRANSMITTER, little};
use transmitter::turns::Progress;
use wire::kinds::ByteOffset;
use wire::output;

// Bytes of each of its two numbers, and of all.
const FIELD_SIZE: usize = 8;

pub const SIZE: usize = CODE_SIZE + FIELD_SIZE + FIELD_SIZE;

// How many messages went out stands behind its code, and then the bytes of their data.
const MESSAGES_AT: ByteOffset = ByteOffset(CODE_SIZE);

const BYTES_AT: ByteOffset = ByteOffset(CODE_SIZE + FIELD_SIZE);

// What isn't open is past the end of every run.
const PAST_ALL: Progress = Progress {
    messages: usize::MAX,
    bytes: 0,
};

// The progress in some bytes.
pub fn read(state: &[u8]) -> Progress
    ensures { result ≡ progress_in state.now }
{
    if state.len() < SIZE || !host_states::is_open(state, TRANSMITTER) {
        return PAST_ALL;
    }
    Progress {
        messages: little::get64(state, MESSAGES_AT) as usize,
        bytes: little::get64(state, BYTES_AT) as usize,
    }
}

// Lays the two numbers of a progress where there is room for them.
fn put_fields(state: &mut [u8], messages: usize, bytes: usize)
    requires { progress_size ≤ length state.old }
    ensures { Lays state.old state.new progress_in (progress_bytes (progress messages bytes))
        (progress messages bytes) }
{
    output::lay(state, CODE_AT, &[TRANSMITTER]);
    little::put64(state, MESSAGES_AT, messages as u64);
    little::put64(state, BYTES_AT, bytes as u64);
}

// Lays a progress, where the code is 0 and there is room: else the code, or 41.
pub fn write(state: &mut [u8], code: u32, progress: Progress) -> u32
    ensures value { result ≡ or_else code (short (ltb (length state.old) progress_size)) }
    ensures keeps { KeepsProgress (on_code result) state.old state.new progress }
    ensures promises { StatePromises KeepsProgress progress_size progress_bytes }
{
    let kept = host_states::with_room(code, state.len(), SIZE);
    if kept != 0 {
        return kept;
    }
    put_fields(state, progress.messages, progress.bytes);
    kept
}
