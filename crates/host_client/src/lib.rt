// The SoupBinTCP session at the client, as a host keeps it.
#![tactic(auto, using(crate::proofs::Rules::clients))]

ghost use Rattle.std.specs.Prelude.{◌≡◌, length, ltb};
ghost use Rattle.host_answers.specs.Answers.{or_else, short};
ghost use Rattle.host_states.specs.States.{StatePromises, on_code};
ghost use Rattle.host_session.specs.Session.{session_state_size};
ghost use Rattle.host_client.specs.Client.{client_state_of, client_is_open, client_phase, client_bytes, client_in};
ghost use Rattle.host_client.specs.Client.{KeepsClient};

use host_session::PHASE_AT;
use host_states::{CLIENT, NAME_AT, NUMBER_AT, little};
use soupbintcp_client::client::{Client, ClientState};
use wire::kinds::SequenceNumber;
use wire::{kinds, parts};

// Bytes of a client.
pub const SIZE: usize = host_session::SIZE;

// The phases by number.
const ASKED: u8 = 1;

const IN: u8 = 2;

const ENDED: u8 = 3;

const CLOSED: u8 = 0;

// The client of a refused start, for too few bytes.
const REFUSED: Client = Client {
    session: kinds::BLANK,
    number: SequenceNumber(1),
    state: ClientState::Closed,
};

// What is open is in by one phase, and has asked by every other one; what isn't is ended by one, and else closed.
fn state_of(opened: bool, phase: u8) -> ClientState
    ensures { result ≡ client_state_of opened phase }
{
    match (opened, phase) {
        (true, IN) => ClientState::In,
        (true, _) => ClientState::Asked,
        (false, ENDED) => ClientState::Ended,
        (false, _) => ClientState::Closed,
    }
}

fn phase_of(state: ClientState) -> u8
    ensures { result ≡ client_phase state }
{
    match state {
        ClientState::Asked => ASKED,
        ClientState::In => IN,
        ClientState::Ended => ENDED,
        ClientState::Closed => CLOSED,
    }
}

fn is_open(state: ClientState) -> bool
    ensures { result ≡ client_is_open state }
{
    matches!(state, ClientState::Asked | ClientState::In)
}

// The client in some bytes.
pub fn read(state: &[u8]) -> Client
    ensures { result ≡ client_in state.now }
{
    if state.len() < SIZE {
        return REFUSED;
    }
    let name_at = NAME_AT.0;
    Client {
        session: parts::first(&state[name_at..]),
        number: SequenceNumber(little::get64(state, NUMBER_AT)),
        state: state_of(
            host_states::is_open(state, CLIENT),
            parts::byte(state, PHASE_AT),
        ),
    }
}

// Lays a client, where the code is 0 and there is room: else the code, or 41.
pub fn write(state: &mut [u8], code: u32, client: Client) -> u32
    ensures value { result ≡ or_else code (short (ltb (length state.old) session_state_size)) }
    ensures keeps { KeepsClient (on_code result) state.old state.new client }
    ensures promises { StatePromises KeepsClient session_state_size client_bytes }
{
    host_session::lay(
        state,
        code,
        host_states::open_byte(CLIENT, is_open(client.state)),
        client.session,
        client.number.0,
        phase_of(client.state),
    )
}
