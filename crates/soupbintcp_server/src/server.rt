// The session at the server.
#![tactic(auto, using(crate::proofs::Rules::entries, crate::proofs::Rules::last_numbers, crate::proofs::Rules::recorded, crate::proofs::Rules::ruled, crate::proofs::Rules::server_starts))]

ghost use Rattle.std.specs.Prelude.{◌≡◌, ◌≤◌, length};
ghost use Rattle.wire.specs.Refusals.{bad_setting};
ghost use Rattle.login.specs.Account.{most_accounts, found_in, found_records, verdict_on};
ghost use Rattle.login.specs.Table.{accounts_of};
ghost use Rattle.login.specs.Decision.{decision_words};
ghost use Rattle.soupbintcp.specs.Letters.{login, packet_kind, packet_values, letter_for};
ghost use Rattle.soupbintcp.specs.declared.packet.Sender.TheVariants.{Client};
ghost use Rattle.soupbintcp.specs.Head.{head_size};
ghost use Rattle.soupbintcp.specs.Front.{session_of, IsInFront};
ghost use Rattle.soupbintcp_session.specs.Answer.{incoming};
ghost use Rattle.soupbintcp_server.specs.Server.{server, refused_server, server_start_refusal, start_server};
ghost use Rattle.soupbintcp_server.specs.Server.{last_refusal, with_last};
ghost use Rattle.soupbintcp_server.specs.Server.{entry_of, ServerSteps, login_row, waiting_row, in_row, server_row};
ghost use Rattle.soupbintcp_server.specs.Server.{step_with, server_step};
ghost use Rattle.soupbintcp_server.specs.Statements.{EntryIsItsFields, OnlyByTheRules};
ghost use Rattle.soupbintcp_server.specs.Statements.{ServerPromises};

use login::account::{Account, Found};
use login::decision::Decision;
use login::{decision, table};
use soupbintcp::front;
use soupbintcp::front::Front;
use soupbintcp::packet::{HEAD_SIZE, LOGIN_PASSWORD_AT, LOGIN_SESSION_AT, Packet, Sender};
use soupbintcp_session::answer::Answer;
use text_fields::session;
use text_fields::sound::{PASSWORD_SIZE, USERNAME_SIZE};
use wire::kinds::{ByteOffset, SESSION_SIZE, SequenceNumber};
use wire::refusal::Refusal;
use wire::{kinds, parts, refusal};

#[derive(Clone, Copy, Debug, PartialEq, Eq)]
pub enum ServerState {
    // No login yet.
    Waiting,
    In,
    Closed,
}

#[derive(Clone, Copy, Debug, PartialEq, Eq)]
pub struct Server {
    pub session: [u8; SESSION_SIZE],
    // The highest message number, 0 if there is none.
    pub last: SequenceNumber,
    pub state: ServerState,
}

// A refusal, its number 0 where there is none, and the server. It is no Result: with a refusal, too, a server is handed
// back, and `Server::new` and `Server::with_last` promise which.
#[derive(Clone, Copy, Debug, PartialEq, Eq)]
pub struct Started {
    pub refusal: Refusal,
    pub server: Server,
}

// The answer to the front of a stream, how many bytes it took, and the server to use next. An accepted login is
// answered to the client with that server's session and the granted number.
#[derive(Clone, Copy, Debug, PartialEq, Eq)]
pub struct Stepped {
    pub answer: Answer,
    pub size: usize,
    pub server: Server,
}

// The entry of the login request in front; zero bytes where there is none, which no table knows.
pub fn entry(stream: &[u8]) -> Account
    ensures value { result ≡ entry_of stream.now }
    ensures its_fields { EntryIsItsFields }
{
    Account {
        username: parts::first(front::username(stream, Sender::Client)),
        password: parts::first(front::password(stream, Sender::Client)),
    }
}

// The entry of the login request that was read in front, at its places.
fn login_entry(stream: &[u8]) -> Account
    requires { IsInFront Client login stream.now }
    ensures { result ≡ entry_of stream.now }
{
    Account {
        username: parts::first(parts::part(stream, ByteOffset(HEAD_SIZE), USERNAME_SIZE)),
        password: parts::first(parts::part(stream, LOGIN_PASSWORD_AT, PASSWORD_SIZE)),
    }
}

// What a table has for the packet that was read in front: nothing where that is no login.
fn found_for(table: &[u8], packet: Packet, stream: &[u8]) -> Found
    requires { (length (accounts_of table.now) ≤ most_accounts)
        × IsInFront Client (packet_kind packet) stream.now }
    ensures { result ≡ found_in (accounts_of table.now) (entry_of stream.now) }
{
    match packet {
        Packet::Login { .. } => table::lookup(table, login_entry(stream)),
        _ => Ok(None),
    }
}

// A refused start: a closed server, its name ten spaces, its number 1.
fn refused_start() -> Started
    ensures { (result.refusal.number ≡ bad_setting) × (result.server ≡ refused_server) }
{
    Started {
        refusal: refusal::BAD_SETTING,
        server: Server {
            session: kinds::BLANK,
            last: SequenceNumber(1),
            state: ServerState::Closed,
        },
    }
}

impl Server {
    // The numbers that a start takes as the last one.
    pub const LEAST_LAST: SequenceNumber = SequenceNumber(0);

    pub const LARGEST_LAST: SequenceNumber = SequenceNumber(u64::MAX - 1);

    // A fresh server, or the refusal 19.
    pub fn new(session: [u8; SESSION_SIZE], last: SequenceNumber) -> Started
        ensures { (result.refusal.number ≡ server_start_refusal session last.0)
            × (result.server ≡ start_server session last.0) }
    {
        if !session::is_session(&session, false)
            || last < Server::LEAST_LAST
            || Server::LARGEST_LAST < last
        {
            return refused_start();
        }
        Started {
            refusal: refusal::NONE,
            server: Server {
                session,
                last,
                state: ServerState::Waiting,
            },
        }
    }

    // The server with another last number, as messages are added; or 19 where it falls or passes the largest, and then
    // the server as it was.
    pub fn with_last(self, last: SequenceNumber) -> Started
        ensures { (result.refusal.number ≡ last_refusal self last.0)
            × (result.server ≡ with_last self last.0) }
    {
        if last < self.last || Server::LARGEST_LAST < last {
            return Started {
                refusal: refusal::BAD_SETTING,
                server: self,
            };
        }
        Started {
            refusal: refusal::NONE,
            server: Server { last, ..self },
        }
    }

    // Takes the front of a client's stream, the accounts being lent as bytes. The front is read once, and the accounts
    // are looked at for a login alone.
    pub fn step(self, table: &[u8], stream: &[u8]) -> Stepped
        ensures server_steps { ServerSteps result (server_step (accounts_of table.now) self stream.now) }
        ensures accepts { OnlyByTheRules result (accounts_of table.now) self stream.now }
        ensures promises { ServerPromises }
    {
        if table::is_too_long(table) {
            return self.stay(Answer::Refused(refusal::BAD_SETTING));
        }
        match front::read(stream, Sender::Client) {
            Front::NeedMore => self.stay(Answer::NeedMore),
            Front::Refused(r) => self.stay(Answer::Refused(r)),
            Front::Whole { packet, size } => {
                self.take(packet, size, found_for(table, packet, stream), stream)
            }
        }
    }

    // The same from what a lookup found, so that the accounts may be kept in any form. The record is compared with the
    // entry in front here: one that is made up is no more than a table of one, and a refusal that is made
    // up no more than the table's.
    pub fn step_with(self, found: Found, stream: &[u8]) -> Stepped
        ensures server_steps { ServerSteps result (step_with self (verdict_on found (entry_of stream.now))
            stream.now) }
        ensures accepts { OnlyByTheRules result (found_records found) self stream.now }
    {
        if let Err(_) = found {
            return self.stay(Answer::Refused(refusal::BAD_SETTING));
        }
        match front::read(stream, Sender::Client) {
            Front::NeedMore => self.stay(Answer::NeedMore),
            Front::Refused(r) => self.stay(Answer::Refused(r)),
            Front::Whole { packet, size } => self.take(packet, size, found, stream),
        }
    }

    // An answer that changes nothing.
    fn stay(self, answer: Answer) -> Stepped
        ensures { result ≡ record { answer = answer; size = 0; server = self } }
    {
        Stepped {
            answer,
            size: 0,
            server: self,
        }
    }

    // A packet taken, and the state after it: the one place where the next server is made.
    fn goes(self, answer: Answer, size: usize, state: ServerState) -> Stepped
        ensures { result ≡ record {
          answer = answer;
          size = size;
          server = server self.session
              self.last.0 state;
        } }
    {
        Stepped {
            answer,
            size,
            server: Server { state, ..self },
        }
    }

    // The row of the table for the packet that was read in front.
    #[tactic(auto, unfolding(crate::specs::Server::row_at, soupbintcp_session::specs::Answer::session_answer_words))]
    fn take(self, packet: Packet, size: usize, found: Found, stream: &[u8]) -> Stepped
        requires { (head_size ≤ size) × IsInFront Client (packet_kind packet) stream.now }
        ensures { ServerSteps result (server_row self (verdict_on found (entry_of stream.now))
            (incoming size (letter_for (packet_kind packet)) (packet_values packet)
            (session_of Client stream.now))) }
    {
        match self.state {
            ServerState::Waiting => self.take_waiting(packet, size, found, stream),
            ServerState::In => self.take_in(packet, size),
            ServerState::Closed => self.stay(Answer::Refused(refusal::STATE_CLOSED)),
        }
    }

    // Waiting for a login.
    #[tactic(auto, using(crate::proofs::Rules::waiting_rows, crate::proofs::Rules::entries), unfolding(crate::specs::Server::waiting_row, soupbintcp::specs::Letters::letter_for, soupbintcp::specs::Letters::packet_kind, soupbintcp::specs::Letters::packet_values, soupbintcp_session::specs::Answer::session_answer_words))]
    fn take_waiting(self, packet: Packet, size: usize, found: Found, stream: &[u8]) -> Stepped
        requires { IsInFront Client (packet_kind packet) stream.now }
        ensures { ServerSteps result (waiting_row self (verdict_on found (entry_of stream.now))
            (incoming size (letter_for (packet_kind packet)) (packet_values packet)
            (session_of Client stream.now))) }
    {
        match packet {
            Packet::Login { number } => {
                let asked = parts::part(stream, LOGIN_SESSION_AT, SESSION_SIZE);
                let entry = login_entry(stream);
                self.log_in(
                    decision::decide(found, entry, asked, number, self.session, self.last),
                    size,
                )
            }
            Packet::Debug => self.goes(Answer::Debug, size, ServerState::Waiting),
            _ => self.stay(Answer::Refused(refusal::PACKET_NOT_TAKEN)),
        }
    }

    // A login that was decided on.
    #[tactic(auto, unfolding(crate::specs::Server::login_at, login::specs::Decision::decision_words, soupbintcp_session::specs::Answer::session_answer_words))]
    fn log_in(self, decision: Result<Decision, Refusal>, size: usize) -> Stepped
        ensures { ServerSteps result (login_row self size (decision_words decision)) }
    {
        match decision {
            Ok(Decision::Accepted { number }) => {
                self.goes(Answer::Accepted { number }, size, ServerState::In)
            }
            Ok(Decision::Rejected { reason }) => {
                self.goes(Answer::Rejected { reason }, size, ServerState::Closed)
            }
            Err(r) => self.stay(Answer::Refused(r)),
        }
    }

    // Logged in.
    #[tactic(auto, unfolding(crate::specs::Server::in_row, soupbintcp::specs::Letters::letter_for, soupbintcp::specs::Letters::packet_kind, soupbintcp_session::specs::Answer::session_answer_words))]
    fn take_in(self, packet: Packet, size: usize) -> Stepped
        requires { head_size ≤ size }
        ensures { ServerSteps result (in_row self size (letter_for (packet_kind packet))) }
    {
        match packet {
            Packet::Unsequenced => {
                let handed = Answer::Unsequenced {
                    at: ByteOffset(HEAD_SIZE),
                    length: size - HEAD_SIZE,
                };
                self.goes(handed, size, ServerState::In)
            }
            Packet::ClientHeartbeat => self.goes(Answer::Heartbeat, size, ServerState::In),
            Packet::Debug => self.goes(Answer::Debug, size, ServerState::In),
            Packet::Logout => self.goes(Answer::LoggedOut, size, ServerState::Closed),
            _ => self.stay(Answer::Refused(refusal::PACKET_NOT_TAKEN)),
        }
    }
}
