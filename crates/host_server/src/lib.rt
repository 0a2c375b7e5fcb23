// The SoupBinTCP session at the server, as a host keeps it.
#![tactic(auto, using(crate::proofs::Rules::servers))]

ghost use Rattle.std.specs.Prelude.{◌≡◌, length, ltb};
ghost use Rattle.soupbintcp_server.specs.Server.{server};
ghost use Rattle.host_answers.specs.Answers.{or_else, short};
ghost use Rattle.host_states.specs.States.{StatePromises, on_code, name_in};
ghost use Rattle.host_session.specs.Session.{session_state_size};
ghost use Rattle.host_server.specs.Server.{server_state_of, server_is_open, server_phase, server_bytes, server_in};
ghost use Rattle.host_server.specs.Server.{KeepsServer};

use host_session::PHASE_AT;
use host_states::{NAME_AT, NUMBER_AT, SERVER, little};
use soupbintcp_server::server::{Server, ServerState};
use wire::kinds::SequenceNumber;
use wire::{kinds, parts};

// Bytes of a server.
pub const SIZE: usize = host_session::SIZE;

// The phases by number.
const WAITING: u8 = 1;

const IN: u8 = 2;

const CLOSED: u8 = 0;

// The server of a refused start, for too few bytes.
const REFUSED: Server = Server {
    session: kinds::BLANK,
    last: SequenceNumber(1),
    state: ServerState::Closed,
};

// What isn't open is closed; what is, is in by one phase, and waiting by every other one.
fn state_of(opened: bool, phase: u8) -> ServerState
    ensures { result ≡ server_state_of opened phase }
{
    match (opened, phase) {
        (true, IN) => ServerState::In,
        (true, _) => ServerState::Waiting,
        (false, _) => ServerState::Closed,
    }
}

fn phase_of(state: ServerState) -> u8
    ensures { result ≡ server_phase state }
{
    match state {
        ServerState::Waiting => WAITING,
        ServerState::In => IN,
        ServerState::Closed => CLOSED,
    }
}

fn is_open(state: ServerState) -> bool
    ensures { result ≡ server_is_open state }
{
    matches!(state, ServerState::Waiting | ServerState::In)
}

// The server in some bytes.
pub fn read(state: &[u8]) -> Server
    ensures { result ≡ server_in state.now }
{
    if state.len() < SIZE {
        return REFUSED;
    }
    let name_at = NAME_AT.0;
    Server {
        session: parts::first(&state[name_at..]),
        last: SequenceNumber(little::get64(state, NUMBER_AT)),
        state: state_of(
            host_states::is_open(state, SERVER),
            parts::byte(state, PHASE_AT),
        ),
    }
}

// Lays a server, where the code is 0 and there is room: else the code, or 41.
pub fn write(state: &mut [u8], code: u32, server: Server) -> u32
    ensures value { result ≡ or_else code (short (ltb (length state.old) session_state_size)) }
    ensures keeps { KeepsServer (on_code result) state.old state.new server }
    ensures promises { StatePromises KeepsServer session_state_size server_bytes }
{
    host_session::lay(
        state,
        code,
        host_states::open_byte(SERVER, is_open(server.state)),
        server.session,
        server.last.0,
        phase_of(server.state),
    )
}

// The same of a server whose name stands in the bytes already: a step never changes it.
pub fn keep(state: &mut [u8], code: u32, after: Server) -> u32
    ensures value { result ≡ or_else code (short (ltb (length state.old) session_state_size)) }
    ensures keeps { KeepsServer (on_code result) state.old state.new
        (server (name_in state.old) after.last.0 after.state) }
{
    host_session::keep(
        state,
        code,
        host_states::open_byte(SERVER, is_open(after.state)),
        after.last.0,
        phase_of(after.state),
    )
}
