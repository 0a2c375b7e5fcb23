// A receiver that keeps early messages, as a host keeps it: the lengths of the messages in its slots stand behind its
// other fields, and are lent from there. What it answers a host is in `answers`, a walk over what a datagram will
// deliver in `walk`.
#![tactic(auto, using(crate::proofs::Rules::receivers))]

pub mod answers;
pub mod walk;

ghost use Rattle.std.specs.Prelude.{◌≡◌, ◌≤◌, length, ltb};
ghost use Rattle.wire.specs.Output.{put};
ghost use Rattle.receiver.specs.Receiver.{receiver};
ghost use Rattle.early_holding.specs.Holding.{early};
ghost use Rattle.host_answers.specs.Answers.{or_else, short};
ghost use Rattle.host_states.specs.States.{StatePromises, on_code};
ghost use Rattle.host_early.specs.Early.{lengths_at, early_size, kept, kept_bytes, early_in, KeepsKept, no_lengths, LaysHead};

use early_holding::holding::{EarlyReceiver, LENGTH_BYTES};
use early_word::Held;
use host_states::{EARLY, FRONT_SIZE, NAME_AT, NUMBER_AT, little};
use receiver::receiver::Receiver;
use wire::kinds::{ByteOffset, COUNT_SIZE, MessageCount, SESSION_SIZE, SequenceNumber};
use wire::{kinds, output, parts};

// Its asking limit stands behind its name and its number, then the word of held numbers, and the lengths.
const LIMIT_AT: ByteOffset = ByteOffset(FRONT_SIZE);

const WORD_SIZE: usize = 8;

const WORD_AT: ByteOffset = ByteOffset(FRONT_SIZE + COUNT_SIZE);

pub const LENGTHS_AT: ByteOffset = ByteOffset(FRONT_SIZE + COUNT_SIZE + WORD_SIZE);

// Bytes of a receiver.
pub const SIZE: usize = FRONT_SIZE + COUNT_SIZE + WORD_SIZE + LENGTH_BYTES;

// The receiver of a refused start, for too few bytes.
const REFUSED: Receiver = Receiver {
    session: kinds::BLANK,
    next: SequenceNumber(1),
    limit: MessageCount(1),
    ended: true,
};

// The receiver in some bytes.
pub fn read(state: &[u8]) -> EarlyReceiver
    ensures { result ≡ early_in state.now }
{
    if state.len() < SIZE {
        return EarlyReceiver {
            base: REFUSED,
            held: Held::NOTHING,
        };
    }
    let name_at = NAME_AT.0;
    EarlyReceiver {
        base: Receiver {
            session: parts::first(&state[name_at..]),
            next: SequenceNumber(little::get64(state, NUMBER_AT)),
            limit: MessageCount(little::get16(state, LIMIT_AT)),
            ended: !host_states::is_open(state, EARLY),
        },
        held: Held(little::get64(state, WORD_AT)),
    }
}

// Lays the fields of a receiver before its lengths, where there is room for all.
fn put_fields(
    state: &mut [u8],
    session: [u8; SESSION_SIZE],
    next: u64,
    limit: u16,
    ended: bool,
    held: u64,
)
    requires { early_size ≤ length state.old }
    ensures { LaysHead state.old state.new
        (early (receiver session next limit ended) held) }
{
    let first = host_states::open_byte(EARLY, !ended);
    host_states::put_front(state, first, session, next);
    little::put16(state, LIMIT_AT, limit);
    little::put64(state, WORD_AT, held);
}

// Lays a receiver whose lengths stand there already.
pub fn write(state: &mut [u8], receiver: EarlyReceiver)
    ensures { LaysHead state.old state.new receiver }
{
    if state.len() < SIZE {
        return;
    }
    let base = receiver.base;
    let held = receiver.held;
    let session = base.session;
    put_fields(
        state,
        session,
        base.next.0,
        base.limit.0,
        base.ended,
        held.0,
    );
}

// Lays lengths of zero, where there is room for a receiver.
fn clear_lengths(state: &mut [u8])
    requires { early_size ≤ length state.old }
    ensures { state.new ≡ put state.old lengths_at no_lengths }
{
    let none = [0u8; LENGTH_BYTES];
    output::lay(state, LENGTHS_AT, &none);
}

// Lays a fresh receiver, with no lengths, where the code is 0 and there is room: else the code, or 41.
pub fn write_fresh(state: &mut [u8], code: u32, receiver: EarlyReceiver) -> u32
    ensures value { result ≡ or_else code (short (ltb (length state.old) early_size)) }
    ensures keeps { KeepsKept (on_code result) state.old state.new (kept receiver no_lengths) }
    ensures promises { StatePromises KeepsKept early_size kept_bytes }
{
    let kept = host_states::with_room(code, state.len(), SIZE);
    if kept != 0 {
        return kept;
    }
    clear_lengths(state);
    write(state, receiver);
    kept
}
