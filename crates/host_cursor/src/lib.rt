// A cursor over the messages of a datagram, as a host keeps it.
#![tactic(auto, using(crate::proofs::Rules::cursors))]

ghost use Rattle.std.specs.Prelude.{◌≡◌, ◌≤◌, length, ltb};
ghost use Rattle.moldudp64_messages.specs.Cursor.{cursor};
ghost use Rattle.host_answers.specs.Answers.{or_else, short};
ghost use Rattle.host_states.specs.States.{Lays, StatePromises, on_code};
ghost use Rattle.host_cursor.specs.Cursor.{cursor_size, cursor_bytes, cursor_in, KeepsCursor};

use host_states::{CODE_AT, CODE_SIZE, CURSOR, little};
use moldudp64_messages::cursor::Cursor;
use wire::kinds::{ByteOffset, COUNT_SIZE, MessageCount};
use wire::output;

// Bytes of a place, and of a cursor.
const PLACE_SIZE: usize = 8;

pub const SIZE: usize = CODE_SIZE + PLACE_SIZE + COUNT_SIZE;

// Its place in the datagram stands behind its code, and then how many messages are left.
const PLACE_AT: ByteOffset = ByteOffset(CODE_SIZE);

const LEFT_AT: ByteOffset = ByteOffset(CODE_SIZE + PLACE_SIZE);

// What isn't open has no messages left.
const NO_MESSAGES: Cursor = Cursor {
    at: ByteOffset(0),
    left: MessageCount(0),
};

// The cursor in some bytes.
pub fn read(state: &[u8]) -> Cursor
    ensures { result ≡ cursor_in state.now }
{
    if state.len() < SIZE || !host_states::is_open(state, CURSOR) {
        return NO_MESSAGES;
    }
    Cursor {
        at: ByteOffset(little::get64(state, PLACE_AT) as usize),
        left: MessageCount(little::get16(state, LEFT_AT)),
    }
}

// Lays the two numbers of a cursor where there is room for them.
fn put_fields(state: &mut [u8], at: usize, left: u16)
    requires { cursor_size ≤ length state.old }
    ensures { Lays state.old state.new cursor_in (cursor_bytes (cursor at left))
        (cursor at left) }
{
    output::lay(state, CODE_AT, &[CURSOR]);
    little::put64(state, PLACE_AT, at as u64);
    little::put16(state, LEFT_AT, left);
}

// Lays a cursor, where the code is 0 and there is room: else the code, or 41.
pub fn write(state: &mut [u8], code: u32, cursor: Cursor) -> u32
    ensures value { result ≡ or_else code (short (ltb (length state.old) cursor_size)) }
    ensures keeps { KeepsCursor (on_code result) state.old state.new cursor }
    ensures promises { StatePromises KeepsCursor cursor_size cursor_bytes }
{
    let kept = host_states::with_room(code, state.len(), SIZE);
    if kept != 0 {
        return kept;
    }
    put_fields(state, cursor.at.0, cursor.left.0);
    kept
}
