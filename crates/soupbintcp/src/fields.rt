// The fields of a packet that is there whole, by its letter.
#![tactic(auto, using(crate::proofs::Rules::parts, crate::proofs::Rules::packets))]

ghost use Rattle.std.specs.Prelude.{◌≡◌, [], ◌∷◌, ◌+◌, get_or};
ghost use Rattle.text_fields.specs.Number.{number_words};
ghost use Rattle.soupbintcp.specs.Letters.{plain_of, packet_kind, packet_values};
ghost use Rattle.soupbintcp.specs.Head.{head_size, letter_of};
ghost use Rattle.soupbintcp.specs.Fields.{has_fields, session_at, session_bytes, number_bytes, blank_allowed};
ghost use Rattle.soupbintcp.specs.Fields.{least_number_of, numbered_of, with_number, reason_fields, fields_words};
ghost use Rattle.soupbintcp.specs.Fields.{fields_at};

use crate::packet;
use crate::packet::{HEAD_SIZE, LOGIN_SESSION_AT, Packet};
use text_fields::number::NUMBER_FIELD_SIZE;
use wire::kinds::{ByteOffset, LEAST_NUMBER, LENGTH_SIZE, SESSION_SIZE, SequenceNumber};
use wire::parts;

// The letter of the packet in front, 0 where it is not there.
pub(crate) fn letter(stream: &[u8]) -> u8
    ensures { result ≡ letter_of stream.now }
{
    parts::byte(stream, ByteOffset(LENGTH_SIZE))
}

// Where the session stands in a packet of a letter; the number follows it.
fn session_at(letter: u8) -> ByteOffset
    ensures { result.0 ≡ session_at letter }
{
    if letter == b'L' {
        LOGIN_SESSION_AT
    } else {
        ByteOffset(HEAD_SIZE)
    }
}

// Whether a packet of a letter has a session and a number.
pub(crate) fn has_fields(letter: u8) -> bool
    ensures { result ≡ has_fields letter }
{
    letter == b'A' || letter == b'L'
}

// The bytes of the session field: none but in A and L.
pub(crate) fn session_field(stream: &[u8], letter: u8) -> &[u8]
    ensures { result.now ≡ session_bytes letter stream.now }
{
    if has_fields(letter) {
        return parts::part(stream, session_at(letter), SESSION_SIZE);
    }
    &[]
}

// The bytes of the number field: none but in A and L.
pub(crate) fn number_field(stream: &[u8], letter: u8) -> &[u8]
    ensures { result.now ≡ number_bytes letter stream.now }
{
    if has_fields(letter) {
        let at = session_at(letter);
        return parts::part(stream, ByteOffset(at.0 + SESSION_SIZE), NUMBER_FIELD_SIZE);
    }
    &[]
}

// Whether the session may be blank: not in A.
pub(crate) fn is_blank_allowed(letter: u8) -> bool
    ensures { result ≡ blank_allowed letter }
{
    letter != b'A'
}

// The least number: 1 in A, 0 in L.
pub(crate) fn least(letter: u8) -> SequenceNumber
    ensures { result.0 ≡ least_number_of letter }
{
    if letter == b'A' {
        LEAST_NUMBER
    } else {
        SequenceNumber(0)
    }
}

// The packets whose letter says all.
fn plain(letter: u8) -> Packet
    ensures { (packet_kind result ≡ plain_of letter) × (packet_values result ≡ []) }
{
    match letter {
        b'S' => Packet::Sequenced,
        b'H' => Packet::ServerHeartbeat,
        b'Z' => Packet::EndOfSession,
        b'U' => Packet::Unsequenced,
        b'R' => Packet::ClientHeartbeat,
        b'O' => Packet::Logout,
        _ => Packet::Debug,
    }
}

// The packet with a number: A, or else L.
fn numbered(letter: u8, number: SequenceNumber) -> Packet
    ensures { (packet_kind result ≡ numbered_of letter) × (packet_values result ≡ number.0 ∷ []) }
{
    if letter == b'A' {
        Packet::Accepted { number }
    } else {
        Packet::Login { number }
    }
}

// A and L: the session is good, and so is the number; else no packet.
fn with_number(letter: u8, good: bool, number: Option<SequenceNumber>) -> Option<Packet>
    ensures { fields_words result ≡ with_number letter good (number_words number) }
{
    if good {
        Some(numbered(letter, number?))
    } else {
        None
    }
}

// J: the reason is `A` or `S`; else no packet.
fn with_reason(reason: u8) -> Option<Packet>
    ensures { fields_words result ≡ reason_fields reason }
{
    packet::is_reason(reason).then_some(Packet::Rejected { reason })
}

// What the fields of a packet that is there whole make, where its session and number were looked at: a packet, none
// where a field is bad.
pub(crate) fn packet(
    stream: &[u8],
    letter: u8,
    good: bool,
    number: Option<SequenceNumber>,
) -> Option<Packet>
    ensures { fields_words result ≡ fields_at letter (get_or stream.now head_size 0) good
        (number_words number) }
{
    if has_fields(letter) {
        with_number(letter, good, number)
    } else if letter == b'J' {
        with_reason(parts::byte(stream, ByteOffset(HEAD_SIZE)))
    } else {
        Some(plain(letter))
    }
}
