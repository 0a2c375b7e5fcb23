// What the states that a host keeps share. A state is bytes of a fixed layout, and any bytes are one. Its first byte is
// its kind's code while it is open, and another one, 0, once it is closed, ended or refused.
#![tactic(auto, using(crate::proofs::Rules::fronts, crate::proofs::Rules::states))]

pub mod little;

ghost use Rattle.std.specs.Prelude.{◌≡◌, ltb};
ghost use Rattle.wire.specs.Output.{put};
ghost use Rattle.host_answers.specs.Answers.{or_else, short};
ghost use Rattle.host_states.specs.States.{is_open, open_byte, front_bytes, name_in};

use wire::kinds::{ByteOffset, NUMBER_SIZE, SESSION_SIZE};
use wire::{output, parts};

// The codes of the kinds.
pub const CURSOR: u8 = 0xE1;

pub const RECEIVER: u8 = 0xE2;

pub const SERVER: u8 = 0xE3;

pub const CLIENT: u8 = 0xE4;

pub const READING: u8 = 0xE5;

pub const TRANSMITTER: u8 = 0xE6;

pub const EARLY: u8 = 0xE7;

pub const WALK: u8 = 0xE8;

pub const MISSING: u8 = 0xE9;

// Where the code stands, its bytes, and what stands there in a state that isn't open.
pub const CODE_AT: ByteOffset = ByteOffset(0);

pub const CODE_SIZE: usize = 1;

const NOT_OPEN: u8 = 0;

// Behind it, in either receiver and in a SoupBinTCP session, the name stands, and then the number.
pub const NAME_AT: ByteOffset = ByteOffset(CODE_SIZE);

pub const NUMBER_AT: ByteOffset = ByteOffset(CODE_SIZE + SESSION_SIZE);

pub const FRONT_SIZE: usize = CODE_SIZE + SESSION_SIZE + NUMBER_SIZE;

// Bytes of a phase or a stage.
pub const PHASE_SIZE: usize = 1;

// Whether a state is open.
pub fn is_open(state: &[u8], code: u8) -> bool
    ensures { result ≡ is_open code state.now }
{
    parts::byte(state, CODE_AT) == code
}

// The first byte of a state.
pub fn open_byte(code: u8, opened: bool) -> u8
    ensures { result ≡ open_byte code opened }
{
    if opened { code } else { NOT_OPEN }
}

// Lays the fields in front of a receiver and of a SoupBinTCP session where they have room: the first byte, the name and
// the number.
pub fn put_front(state: &mut [u8], first: u8, name: [u8; SESSION_SIZE], number: u64)
    ensures { state.new ≡ put state.old 0 (front_bytes first name number) }
{
    if state.len() < FRONT_SIZE {
        return;
    }
    output::lay(state, CODE_AT, &[first]);
    output::lay(state, NAME_AT, &name);
    little::put64(state, NUMBER_AT, number);
}

// Lays the same fields but for the name, which stays as it stands there: for a step that never changes it.
pub fn keep_front(state: &mut [u8], first: u8, number: u64)
    ensures { state.new
        ≡ put state.old 0 (front_bytes first (name_in state.old) number) }
{
    if state.len() < FRONT_SIZE {
        return;
    }
    output::lay(state, CODE_AT, &[first]);
    little::put64(state, NUMBER_AT, number);
}

// A code, or 41 where so many bytes have no room for a state.
pub fn with_room(code: u32, lent: usize, size: usize) -> u32
    ensures { result ≡ or_else code (short (ltb lent size)) }
{
    if code == 0 && lent < size {
        host_answers::SHORT
    } else {
        code
    }
}
