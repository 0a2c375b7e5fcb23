// The front of a stream: a packet, need more, or a refusal; and the parts of the packet there.
#![tactic(auto, using(crate::proofs::Rules::fronts, crate::proofs::Rules::within))]

ghost use Rattle.std.specs.Prelude.{◌≡◌};
ghost use Rattle.soupbintcp.specs.Fields.{fields_words, fields_of};
ghost use Rattle.soupbintcp.specs.Front.{front_words, front_of, FrontPromises, packet_bytes, login_part, payload_of};
ghost use Rattle.soupbintcp.specs.Front.{session_of, username_of, password_of};

use crate::head::Head;
use crate::packet::{HEAD_SIZE, LOGIN_PASSWORD_AT, Packet, Sender};
use crate::{fields, head};
use text_fields::sound::{PASSWORD_SIZE, USERNAME_SIZE};
use text_fields::{number, session};
use wire::kinds::ByteOffset;
use wire::refusal::Refusal;
use wire::{parts, refusal};

// What stands at the front of a stream.
#[derive(Clone, Copy, Debug, PartialEq, Eq)]
pub enum Front {
    // A packet, and how many bytes it takes.
    Whole { packet: Packet, size: usize },
    NeedMore,
    Refused(Refusal),
}

// The fields of the packet in front, which is there whole. They are looked for in A and L alone: no other letter has a
// session and a number, so what is said of them there doesn't count.
fn read_fields(stream: &[u8]) -> Option<Packet>
    ensures { fields_words result ≡ fields_of stream.now }
{
    let letter = fields::letter(stream);
    if !fields::has_fields(letter) {
        return fields::packet(stream, letter, false, None);
    }
    let good = session::is_session(
        fields::session_field(stream, letter),
        fields::is_blank_allowed(letter),
    );
    let number = number::read(fields::number_field(stream, letter), fields::least(letter));
    fields::packet(stream, letter, good, number)
}

// The front of a stream, in document 01's order: need more or 21 to 24, then 25.
pub fn read(stream: &[u8], sender: Sender) -> Front
    ensures result_value { front_words result ≡ front_of sender stream.now }
    ensures promises { FrontPromises }
{
    let size = match head::read(stream, sender) {
        Head::NeedMore => return Front::NeedMore,
        Head::Refused(r) => return Front::Refused(r),
        Head::Whole { size } => size,
    };
    match read_fields(stream) {
        Some(packet) => Front::Whole { packet, size },
        None => Front::Refused(refusal::FIELD_BAD),
    }
}

// The payload of the packet in front, no bytes where there is none.
pub fn payload(stream: &[u8], sender: Sender) -> &[u8]
    ensures { result.now ≡ payload_of sender stream.now }
{
    match read(stream, sender) {
        Front::Whole { size, .. } => {
            parts::part(stream, ByteOffset(HEAD_SIZE), size - HEAD_SIZE)
        }
        _ => &[],
    }
}

// The bytes of the packet in front, none where there is no packet.
fn packet_bytes(stream: &[u8], sender: Sender) -> &[u8]
    ensures { result.now ≡ packet_bytes sender stream.now }
{
    match read(stream, sender) {
        Front::Whole { size, .. } => parts::part(stream, ByteOffset(0), size),
        _ => &[],
    }
}

// The session of the packet in front: none but of A and L.
pub fn session(stream: &[u8], sender: Sender) -> &[u8]
    ensures { result.now ≡ session_of sender stream.now }
{
    let packet = packet_bytes(stream, sender);
    fields::session_field(packet, fields::letter(packet))
}

// A part of a login request, none of another packet.
fn login_part(packet: &[u8], at: ByteOffset, size: usize) -> &[u8]
    ensures { result.now ≡ login_part packet.now at.0 size }
{
    if fields::letter(packet) == b'L' {
        parts::part(packet, at, size)
    } else {
        &[]
    }
}

// The username of the login request in front, no bytes where there is none.
pub fn username(stream: &[u8], sender: Sender) -> &[u8]
    ensures { result.now ≡ username_of sender stream.now }
{
    login_part(
        packet_bytes(stream, sender),
        ByteOffset(HEAD_SIZE),
        USERNAME_SIZE,
    )
}

// The password of the login request in front, no bytes where there is none.
pub fn password(stream: &[u8], sender: Sender) -> &[u8]
    ensures { result.now ≡ password_of sender stream.now }
{
    login_part(
        packet_bytes(stream, sender),
        LOGIN_PASSWORD_AT,
        PASSWORD_SIZE,
    )
}
