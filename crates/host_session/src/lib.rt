// What the SoupBinTCP sessions of both ends share for hosts: the bytes of a state, and the words of an answer.
#![tactic(auto, using(crate::proofs::Rules::sessions))]

pub mod replies;

ghost use Rattle.std.specs.Prelude.{◌≡◌, ◌≤◌, length, ltb};
ghost use Rattle.host_answers.specs.Answers.{or_else, short};
ghost use Rattle.host_states.specs.States.{Lays, Keeps, on_code, name_in};
ghost use Rattle.host_session.specs.Session.{session_state_size, session_fields, session_state_bytes, session_state_in};

use host_states::{FRONT_SIZE, PHASE_SIZE};
use wire::kinds::{ByteOffset, SESSION_SIZE};
use wire::output;

// Its phase stands behind its name and its number.
pub const PHASE_AT: ByteOffset = ByteOffset(FRONT_SIZE);

// Bytes of a session.
pub const SIZE: usize = FRONT_SIZE + PHASE_SIZE;

// Lays the four fields where there is room for them.
fn put_fields(state: &mut [u8], first: u8, name: [u8; SESSION_SIZE], number: u64, phase: u8)
    requires { session_state_size ≤ length state.old }
    ensures { Lays state.old state.new session_state_in
        (session_state_bytes (session_fields first name number phase)) (session_fields first name number phase) }
{
    host_states::put_front(state, first, name, number);
    output::lay(state, PHASE_AT, &[phase]);
}

// The same but for the name, which stays as it stands there.
fn keep_fields(state: &mut [u8], first: u8, number: u64, phase: u8)
    requires { session_state_size ≤ length state.old }
    ensures { Lays state.old state.new session_state_in
        (session_state_bytes (session_fields first (name_in state.old) number phase))
        (session_fields first (name_in state.old) number phase) }
{
    host_states::keep_front(state, first, number);
    output::lay(state, PHASE_AT, &[phase]);
}

// Lays the four fields, where the code is 0 and there is room: else the code, or 41.
pub fn lay(
    state: &mut [u8],
    code: u32,
    first: u8,
    name: [u8; SESSION_SIZE],
    number: u64,
    phase: u8,
) -> u32
    ensures value { result ≡ or_else code (short (ltb (length state.old) session_state_size)) }
    ensures keeps { Keeps (on_code result) state.old state.new session_state_size session_state_in
        (session_state_bytes (session_fields first name number phase)) (session_fields first name number phase) }
{
    let kept = host_states::with_room(code, state.len(), SIZE);
    if kept != 0 {
        return kept;
    }
    put_fields(state, first, name, number, phase);
    kept
}

// The same of a session whose name stands in the bytes already.
pub fn keep(state: &mut [u8], code: u32, first: u8, number: u64, phase: u8) -> u32
    ensures value { result ≡ or_else code (short (ltb (length state.old) session_state_size)) }
    ensures keeps { Keeps (on_code result) state.old state.new session_state_size session_state_in
        (session_state_bytes (session_fields first (name_in state.old) number phase))
        (session_fields first (name_in state.old) number phase) }
{
    let kept = host_states::with_room(code, state.len(), SIZE);
    if kept != 0 {
        return kept;
    }
    keep_fields(state, first, number, phase);
    kept
}
