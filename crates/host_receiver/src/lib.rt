// A receiver, as a host keeps it; what it answers a host is in `answers`.
#![tactic(auto, using(crate::proofs::Rules::receivers))]

pub mod answers;

ghost use Rattle.std.specs.Prelude.{◌≡◌, ◌≤◌, length, ltb};
ghost use Rattle.receiver.specs.Receiver.{receiver};
ghost use Rattle.host_answers.specs.Answers.{or_else, short};
ghost use Rattle.host_states.specs.States.{Lays, StatePromises, on_code};
ghost use Rattle.host_receiver.specs.Receiver.{receiver_size, receiver_bytes, receiver_in, KeepsReceiver};

use host_states::{FRONT_SIZE, NAME_AT, NUMBER_AT, RECEIVER, little};
use receiver::receiver::Receiver;
use wire::kinds::{ByteOffset, COUNT_SIZE, MessageCount, SESSION_SIZE, SequenceNumber};
use wire::{kinds, parts};

// Its asking limit stands behind its name and its number.
const LIMIT_AT: ByteOffset = ByteOffset(FRONT_SIZE);

// Bytes of a receiver.
pub const SIZE: usize = FRONT_SIZE + COUNT_SIZE;

// The receiver of a refused start, for too few bytes.
const REFUSED: Receiver = Receiver {
    session: kinds::BLANK,
    next: SequenceNumber(1),
    limit: MessageCount(1),
    ended: true,
};

// The receiver in some bytes.
pub fn read(state: &[u8]) -> Receiver
    ensures { result ≡ receiver_in state.now }
{
    if state.len() < SIZE {
        return REFUSED;
    }
    let name_at = NAME_AT.0;
    Receiver {
        session: parts::first(&state[name_at..]),
        next: SequenceNumber(little::get64(state, NUMBER_AT)),
        limit: MessageCount(little::get16(state, LIMIT_AT)),
        ended: !host_states::is_open(state, RECEIVER),
    }
}

// Lays the four fields of a receiver where there is room for them.
fn put_fields(state: &mut [u8], session: [u8; SESSION_SIZE], next: u64, limit: u16, ended: bool)
    requires { receiver_size ≤ length state.old }
    ensures { Lays state.old state.new receiver_in
        (receiver_bytes (receiver session next limit ended)) (receiver session next limit ended) }
{
    let first = host_states::open_byte(RECEIVER, !ended);
    host_states::put_front(state, first, session, next);
    little::put16(state, LIMIT_AT, limit);
}

// Lays a receiver, where the code is 0 and there is room: else the code, or 41.
pub fn write(state: &mut [u8], code: u32, receiver: Receiver) -> u32
    ensures value { result ≡ or_else code (short (ltb (length state.old) receiver_size)) }
    ensures keeps { KeepsReceiver (on_code result) state.old state.new receiver }
    ensures promises { StatePromises KeepsReceiver receiver_size receiver_bytes }
{
    let kept = host_states::with_room(code, state.len(), SIZE);
    if kept != 0 {
        return kept;
    }
    put_fields(
        state,
        receiver.session,
        receiver.next.0,
        receiver.limit.0,
        receiver.ended,
    );
    kept
}
