// What a client sends; debug packets are with the server's.
#![tactic(auto, using(crate::proofs::Rules::letters, crate::proofs::Rules::logins))]

ghost use Rattle.std.specs.Prelude.{◌≡◌, [], ◌++◌, ◌+◌, ◌≤◌, length};
ghost use Rattle.wire.specs.Bounds.{session_size};
ghost use Rattle.wire.specs.Output.{Writes, put};
ghost use Rattle.text_fields.specs.Sound.{username_size, password_size};
ghost use Rattle.soupbintcp.specs.Letters.{letter_client_heartbeat, letter_login, letter_logout, letter_unsequenced};
ghost use Rattle.soupbintcp.specs.Head.{head_size};
ghost use Rattle.soupbintcp_writer.specs.Packets.{encoded, payload_ground, good_login, login_ground, login_payload};
ghost use Rattle.soupbintcp_writer.specs.RoundTrips.{PayloadRoundTrip, LetterRoundTrip, LoginRoundTrip};

use crate::packets;
use soupbintcp::packet::{HEAD_SIZE, LOGIN_PASSWORD_AT, LOGIN_PAYLOAD, LOGIN_SESSION_AT};
use text_fields::sound::{PASSWORD_SIZE, USERNAME_SIZE};
use text_fields::{number, session, sound};
use wire::kinds::{ByteOffset, SESSION_SIZE, SequenceNumber};
use wire::refusal::Refusal;
use wire::{output, refusal};

// Bytes of a login request: the head, the username, the password, the session and the number.
const LOGIN_SIZE: usize = HEAD_SIZE + LOGIN_PAYLOAD;

// Where its number stands: after the three names.
const NUMBER_AT: ByteOffset = ByteOffset(HEAD_SIZE + USERNAME_SIZE + PASSWORD_SIZE + SESSION_SIZE);

// Writes an unsequenced message.
pub fn write_unsequenced(out: &mut [u8], payload: &[u8]) -> Result<usize, Refusal>
    ensures writes { Writes result out.old out.new (payload_ground payload.now) 0
        (encoded letter_unsequenced payload.now) }
    ensures round_trip { PayloadRoundTrip }
{
    packets::write_payload(out, b'U', payload)
}

// Writes a client's heartbeat.
pub fn write_heartbeat(out: &mut [u8]) -> Result<usize, Refusal>
    ensures writes { Writes result out.old out.new 0 0 (encoded letter_client_heartbeat []) }
    ensures round_trip { LetterRoundTrip }
{
    packets::write_letter(out, b'R')
}

// Writes a logout.
pub fn write_logout(out: &mut [u8]) -> Result<usize, Refusal>
    ensures writes { Writes result out.old out.new 0 0 (encoded letter_logout []) }
    ensures round_trip { LetterRoundTrip }
{
    packets::write_letter(out, b'O')
}

// What a login request asks with. It has no Debug, as that would print the password.
#[derive(Clone, Copy)]
pub struct Login {
    pub username: [u8; USERNAME_SIZE],
    pub password: [u8; PASSWORD_SIZE],
    pub session: [u8; SESSION_SIZE],
    pub number: SequenceNumber,
}

// Whether a login request may be written.
fn is_good(login: Login) -> bool
    ensures { result ≡ good_login login.username login.password login.session }
{
    sound::is_username(&login.username)
        && sound::is_password(&login.password)
        && session::is_session(&login.session, true)
}

// Lays the three names of a login request behind its head.
fn put_names(out: &mut [u8], login: Login)
    requires { head_size + username_size + password_size + session_size ≤ length out.old }
    ensures { out.new ≡ put out.old head_size (login.username ++ login.password ++ login.session) }
{
    output::lay(out, ByteOffset(HEAD_SIZE), &login.username);
    output::lay(out, LOGIN_PASSWORD_AT, &login.password);
    output::lay(out, LOGIN_SESSION_AT, &login.session);
}

// Writes a login request.
pub fn write_login(out: &mut [u8], login: Login) -> Result<usize, Refusal>
    ensures writes { Writes result out.old out.new
        (login_ground login.username login.password login.session) 0
        (encoded letter_login (login_payload login.username login.password login.session
        login.number.0)) }
    ensures round_trip { LoginRoundTrip }
{
    if !is_good(login) {
        return Err(refusal::FIELD_NOT_WRITTEN);
    }
    output::room(out.len(), ByteOffset(0), LOGIN_SIZE)?;
    packets::put_head(out, b'L', LOGIN_PAYLOAD);
    put_names(out, login);
    output::lay(out, NUMBER_AT, &number::field(login.number));
    Ok(LOGIN_SIZE)
}
