// The session at the client.
#![tactic(auto, using(crate::proofs::Rules::asks, crate::proofs::Rules::client_fronts, crate::proofs::Rules::client_starts, crate::proofs::Rules::hand_ups))]

ghost use Rattle.std.specs.Prelude.{◌≡◌, ◌≤◌};
ghost use Rattle.wire.specs.Refusals.{bad_setting};
ghost use Rattle.soupbintcp.specs.Letters.{packet_kind, packet_values, letter_for};
ghost use Rattle.soupbintcp.specs.declared.packet.Sender.TheVariants.{Server};
ghost use Rattle.soupbintcp.specs.Head.{head_size};
ghost use Rattle.soupbintcp.specs.Front.{session_of, IsInFront};
ghost use Rattle.soupbintcp_session.specs.Answer.{incoming};
ghost use Rattle.soupbintcp_client.specs.Client.{client, refused_client, client_start_refusal, start_client};
ghost use Rattle.soupbintcp_client.specs.Client.{session_asked, number_asked, ClientSteps, accepted_row};
ghost use Rattle.soupbintcp_client.specs.Client.{sequenced_row, asked_row, in_row, client_row, client_step};
ghost use Rattle.soupbintcp_client.specs.Statements.{ClientPromises};

use soupbintcp::front;
use soupbintcp::front::Front;
use soupbintcp::packet::{HEAD_SIZE, Packet, Sender};
use soupbintcp_session::answer::Answer;
use text_fields::session;
use wire::kinds::{ByteOffset, SESSION_SIZE, SequenceNumber};
use wire::refusal::Refusal;
use wire::{compare, kinds, parts, refusal};

#[derive(Clone, Copy, Debug, PartialEq, Eq)]
pub enum ClientState {
    // A login was asked for.
    Asked,
    In,
    Ended,
    Closed,
}

#[derive(Clone, Copy, Debug, PartialEq, Eq)]
pub struct Client {
    // Until A comes: the session and number that are asked for, blank for any session and 0 for any number. From A
    // on: the session's name, and the number of the next message.
    pub session: [u8; SESSION_SIZE],
    pub number: SequenceNumber,
    pub state: ClientState,
}

// The refusal of a start, its number 0 where there is none, and the client. It is no Result: a refused start hands back
// a client too, and `Client::new` promises which.
#[derive(Clone, Copy, Debug, PartialEq, Eq)]
pub struct Started {
    pub refusal: Refusal,
    pub client: Client,
}

// The answer to the front of a stream, how many bytes it took, and the client to use next.
#[derive(Clone, Copy, Debug, PartialEq, Eq)]
pub struct Stepped {
    pub answer: Answer,
    pub size: usize,
    pub client: Client,
}

// A refused start: a closed client, its name ten spaces, its number 1.
fn refused_start() -> Started
    ensures { (result.refusal.number ≡ bad_setting) × (result.client ≡ refused_client) }
{
    Started {
        refusal: refusal::BAD_SETTING,
        client: Client {
            session: kinds::BLANK,
            number: SequenceNumber(1),
            state: ClientState::Closed,
        },
    }
}

impl Client {
    // The numbers that a start takes: 0 asks for any.
    pub const LEAST_NUMBER: SequenceNumber = SequenceNumber(0);

    pub const LARGEST_NUMBER: SequenceNumber = kinds::LARGEST_NUMBER;

    // A fresh client, or the refusal 19.
    pub fn new(session: [u8; SESSION_SIZE], number: SequenceNumber) -> Started
        ensures { (result.refusal.number ≡ client_start_refusal session number.0)
            × (result.client ≡ start_client session number.0) }
    {
        if !session::is_session(&session, true)
            || number < Client::LEAST_NUMBER
            || Client::LARGEST_NUMBER < number
        {
            return refused_start();
        }
        Started {
            refusal: refusal::NONE,
            client: Client {
                session,
                number,
                state: ClientState::Asked,
            },
        }
    }

    // Takes the front of a server's stream.
    pub fn step(self, stream: &[u8]) -> Stepped
        ensures client_steps { ClientSteps result (client_step self stream.now) }
        ensures promises { ClientPromises }
    {
        match front::read(stream, Sender::Server) {
            Front::NeedMore => self.stay(Answer::NeedMore),
            Front::Refused(r) => self.stay(Answer::Refused(r)),
            Front::Whole { packet, size } => self.take(packet, size, stream),
        }
    }

    // An answer that changes nothing.
    fn stay(self, answer: Answer) -> Stepped
        ensures { result ≡ record { answer = answer; size = 0; client = self } }
    {
        Stepped {
            answer,
            size: 0,
            client: self,
        }
    }

    // A packet taken, and the client's number and state after it.
    fn goes(
        self,
        answer: Answer,
        size: usize,
        number: SequenceNumber,
        state: ClientState,
    ) -> Stepped
        ensures { result ≡ record { answer = answer; size = size; client = client self.session number.0 state } }
    {
        Stepped {
            answer,
            size,
            client: Client {
                number,
                state,
                ..self
            },
        }
    }

    // The row of the table for the packet that was read in front.
    #[tactic(auto, unfolding(crate::specs::Client::row_at, soupbintcp_session::specs::Answer::session_answer_words))]
    fn take(self, packet: Packet, size: usize, stream: &[u8]) -> Stepped
        requires { (head_size ≤ size) × IsInFront Server (packet_kind packet) stream.now }
        ensures { ClientSteps result (client_row self (incoming size (letter_for (packet_kind packet))
            (packet_values packet) (session_of Server stream.now))) }
    {
        match self.state {
            ClientState::Asked => self.take_asked(packet, size, stream),
            ClientState::In => self.take_in(packet, size),
            ClientState::Ended | ClientState::Closed => {
                self.stay(Answer::Refused(refusal::STATE_CLOSED))
            }
        }
    }

    // A login was asked for.
    #[tactic(auto, using(crate::proofs::Rules::asked_rows), unfolding(crate::specs::Client::asked_row, soupbintcp::specs::Letters::letter_for, soupbintcp::specs::Letters::packet_kind, soupbintcp::specs::Letters::packet_values, soupbintcp_session::specs::Answer::session_answer_words))]
    fn take_asked(self, packet: Packet, size: usize, stream: &[u8]) -> Stepped
        requires { IsInFront Server (packet_kind packet) stream.now }
        ensures { ClientSteps result (asked_row self (incoming size (letter_for (packet_kind packet))
            (packet_values packet) (session_of Server stream.now))) }
    {
        match packet {
            Packet::Accepted { number } => {
                let given = parts::part(stream, ByteOffset(HEAD_SIZE), SESSION_SIZE);
                self.log_in(size, given, number)
            }
            Packet::Rejected { reason } => self.goes(
                Answer::Rejected { reason },
                size,
                self.number,
                ClientState::Closed,
            ),
            Packet::Debug => self.goes(Answer::Debug, size, self.number, ClientState::Asked),
            _ => self.stay(Answer::Refused(refusal::PACKET_NOT_TAKEN)),
        }
    }

    // Whether A carries the session that was asked for: any, where that was blank.
    fn asked_session(self, given: &[u8]) -> bool
        ensures { result ≡ session_asked self.session given.now }
    {
        compare::is_name(&self.session, kinds::BLANK) || compare::is_name(given, self.session)
    }

    // Whether A carries the number that was asked for: any, where that was 0.
    fn asked_number(self, given: SequenceNumber) -> bool
        ensures { result ≡ number_asked self.number.0 given.0 }
    {
        self.number.is_zero() || given == self.number
    }

    // A: the session and the number are taken from it.
    fn log_in(self, size: usize, given: &[u8], number: SequenceNumber) -> Stepped
        ensures { ClientSteps result (accepted_row self size given.now number.0) }
    {
        if !self.asked_session(given) || !self.asked_number(number) {
            return self.stay(Answer::Refused(refusal::LOGIN_NOT_ASKED));
        }
        Stepped {
            answer: Answer::Accepted { number },
            size,
            client: Client {
                session: parts::first(given),
                number,
                state: ClientState::In,
            },
        }
    }

    // Logged in.
    #[tactic(auto, unfolding(crate::specs::Client::in_row, soupbintcp::specs::Letters::letter_for, soupbintcp::specs::Letters::packet_kind, soupbintcp_session::specs::Answer::session_answer_words))]
    fn take_in(self, packet: Packet, size: usize) -> Stepped
        requires { head_size ≤ size }
        ensures { ClientSteps result (in_row self size (letter_for (packet_kind packet))) }
    {
        match packet {
            Packet::Sequenced => self.hand_up(size),
            Packet::ServerHeartbeat => {
                self.goes(Answer::Heartbeat, size, self.number, ClientState::In)
            }
            Packet::Debug => self.goes(Answer::Debug, size, self.number, ClientState::In),
            Packet::EndOfSession => {
                self.goes(Answer::EndOfSession, size, self.number, ClientState::Ended)
            }
            _ => self.stay(Answer::Refused(refusal::PACKET_NOT_TAKEN)),
        }
    }

    // S: message n, and then n + 1.
    fn hand_up(self, size: usize) -> Stepped
        requires { head_size ≤ size }
        ensures { ClientSteps result (sequenced_row self size) }
    {
        let number = self.number;
        if number == Client::LARGEST_NUMBER {
            return self.stay(Answer::Refused(refusal::NUMBERS_USED_UP));
        }
        let handed = Answer::Sequenced {
            number,
            at: ByteOffset(HEAD_SIZE),
            length: size - HEAD_SIZE,
        };
        self.goes(handed, size, SequenceNumber(number.0 + 1), ClientState::In)
    }
}
