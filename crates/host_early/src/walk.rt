// A walk over what a datagram will deliver, as a host keeps it.
#![tactic(auto, using(crate::proofs::Rules::walks))]

ghost use Rattle.std.specs.Prelude.{◌≡◌, ◌≤◌, length, ltb};
ghost use Rattle.moldudp64_messages.specs.Cursor.{cursor};
ghost use Rattle.early_messages.specs.Walk.{walk};
ghost use Rattle.host_answers.specs.Answers.{or_else, short};
ghost use Rattle.host_states.specs.States.{Lays, StatePromises, on_code};
ghost use Rattle.wire.specs.Output.{put};
ghost use Rattle.host_early.specs.Walk.{place_at, walk_size, coming_bytes, block_bytes, walk_bytes, walk_in, KeepsWalk};

use early_messages::walk::Walk;
use host_states::{CODE_AT, CODE_SIZE, WALK, little};
use moldudp64_messages::cursor::Cursor;
use wire::kinds::{ByteOffset, COUNT_SIZE, MessageCount, NUMBER_SIZE, SequenceNumber};
use wire::output;

// Bytes of a place.
const PLACE_SIZE: usize = 8;

// Behind its code stand the number to come, how many messages are left, and the cursor: its place, and how many blocks
// are left there.
const NUMBER_AT: ByteOffset = ByteOffset(CODE_SIZE);

const LEFT_AT: ByteOffset = ByteOffset(CODE_SIZE + NUMBER_SIZE);

const PLACE_AT: ByteOffset = ByteOffset(CODE_SIZE + NUMBER_SIZE + COUNT_SIZE);

const BLOCKS_AT: ByteOffset = ByteOffset(CODE_SIZE + NUMBER_SIZE + COUNT_SIZE + PLACE_SIZE);

pub const SIZE: usize = CODE_SIZE + NUMBER_SIZE + COUNT_SIZE + PLACE_SIZE + COUNT_SIZE;

// What isn't open has no messages left.
const NO_MESSAGES: Walk = Walk {
    number: SequenceNumber(0),
    left: MessageCount(0),
    cursor: Cursor {
        at: ByteOffset(0),
        left: MessageCount(0),
    },
};

// The walk in some bytes.
pub fn read(state: &[u8]) -> Walk
    ensures { result ≡ walk_in state.now }
{
    if state.len() < SIZE {
        return NO_MESSAGES;
    }
    if host_states::is_open(state, WALK) {
        return Walk {
            number: SequenceNumber(little::get64(state, NUMBER_AT)),
            left: MessageCount(little::get16(state, LEFT_AT)),
            cursor: Cursor {
                at: ByteOffset(little::get64(state, PLACE_AT) as usize),
                left: MessageCount(little::get16(state, BLOCKS_AT)),
            },
        };
    }
    NO_MESSAGES
}

// Lays the code, the number to come and how many messages are left, where there is room for a walk.
fn put_coming(state: &mut [u8], number: u64, left: u16)
    requires { walk_size ≤ length state.old }
    ensures { state.new ≡ put state.old 0 (coming_bytes number left) }
{
    output::lay(state, CODE_AT, &[WALK]);
    little::put64(state, NUMBER_AT, number);
    little::put16(state, LEFT_AT, left);
}

// Lays the cursor behind them.
fn put_cursor(state: &mut [u8], at: usize, blocks: u16)
    requires { walk_size ≤ length state.old }
    ensures { state.new ≡ put state.old place_at (block_bytes at blocks) }
{
    little::put64(state, PLACE_AT, at as u64);
    little::put16(state, BLOCKS_AT, blocks);
}

// Lays the numbers of a walk where there is room for them.
fn put_fields(state: &mut [u8], number: u64, left: u16, at: usize, blocks: u16)
    requires { walk_size ≤ length state.old }
    ensures { Lays state.old state.new walk_in
        (walk_bytes (walk number left (cursor at blocks))) (walk number left (cursor at blocks)) }
{
    put_coming(state, number, left);
    put_cursor(state, at, blocks);
}

// Lays a walk, where the code is 0 and there is room: else the code, or 41.
pub fn write(state: &mut [u8], code: u32, walk: Walk) -> u32
    ensures value { result ≡ or_else code (short (ltb (length state.old) walk_size)) }
    ensures keeps { KeepsWalk (on_code result) state.old state.new walk }
    ensures promises { StatePromises KeepsWalk walk_size walk_bytes }
{
    let kept = host_states::with_room(code, state.len(), SIZE);
    if kept != 0 {
        return kept;
    }
    let cursor = walk.cursor;
    put_fields(
        state,
        walk.number.0,
        walk.left.0,
        cursor.at.0,
        cursor.left.0,
    );
    kept
}
