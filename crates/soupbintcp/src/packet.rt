// What a logical packet says.
#![tactic(auto, using(crate::proofs::Rules::packets))]

ghost use Rattle.std.specs.Prelude.{◌≡◌};
ghost use Rattle.soupbintcp.specs.Fields.{good_reason};

use text_fields::number::NUMBER_FIELD_SIZE;
use text_fields::sound::{PASSWORD_SIZE, USERNAME_SIZE};
use wire::kinds::{ByteOffset, LENGTH_SIZE, SESSION_SIZE, SequenceNumber};

// Who sends a stream.
#[derive(Clone, Copy, Debug, PartialEq, Eq)]
pub enum Sender {
    Server,
    Client,
}

// A packet. Its payload, its session and what else it holds as bytes are had as parts of the stream.
#[derive(Clone, Copy, Debug, PartialEq, Eq)]
pub enum Packet {
    Debug,
    Accepted { number: SequenceNumber },
    // The reason is `A` or `S`.
    Rejected { reason: u8 },
    Sequenced,
    ServerHeartbeat,
    EndOfSession,
    Login { number: SequenceNumber },
    Unsequenced,
    ClientHeartbeat,
    Logout,
}

// The bytes of the payload of A: session and number; of J: the reason; of L: username, password, session and number.
pub const ACCEPTED_PAYLOAD: usize = SESSION_SIZE + NUMBER_FIELD_SIZE;

pub const REJECTED_PAYLOAD: usize = 1;

pub const LOGIN_PAYLOAD: usize = USERNAME_SIZE + PASSWORD_SIZE + SESSION_SIZE + NUMBER_FIELD_SIZE;

// Bytes before the payload: the length, which counts all but itself, and the letter.
pub const HEAD_SIZE: usize = LENGTH_SIZE + 1;

// Where the fields of L stand after its username.
pub const LOGIN_PASSWORD_AT: ByteOffset = ByteOffset(HEAD_SIZE + USERNAME_SIZE);

pub const LOGIN_SESSION_AT: ByteOffset = ByteOffset(HEAD_SIZE + USERNAME_SIZE + PASSWORD_SIZE);

// The most bytes of a payload.
pub const MOST_PAYLOAD: usize = 4096;

// The reasons for rejecting a login: its account, or its session or number.
pub const NOT_AUTHORIZED: u8 = b'A';

pub const SESSION_NOT_AVAILABLE: u8 = b'S';

// Whether a byte is such a reason.
pub fn is_reason(b: u8) -> bool
    ensures { result ≡ good_reason b }
{
    b == NOT_AUTHORIZED || b == SESSION_NOT_AVAILABLE
}
