// The writers of packets.
#![tactic(auto, using(crate::proofs::Rules::names, crate::proofs::Rules::writers))]

ghost use Rattle.std.specs.Prelude.{[], ◌∷◌, length};
ghost use Rattle.wire.specs.Bounds.{session_size};
ghost use Rattle.wire.specs.Refusals.{field_not_written};
ghost use Rattle.wire.specs.Parts.{first_bytes};
ghost use Rattle.text_fields.specs.Sound.{username_size, password_size};
ghost use Rattle.soupbintcp.specs.Letters.{letter_debug, letter_accepted, letter_rejected, letter_sequenced};
ghost use Rattle.soupbintcp.specs.Letters.{letter_server_heartbeat, letter_end, letter_login, letter_unsequenced};
ghost use Rattle.soupbintcp.specs.Letters.{letter_client_heartbeat, letter_logout};
ghost use Rattle.soupbintcp_writer.specs.Packets.{encoded, payload_ground, accepted_ground, accepted_payload};
ghost use Rattle.soupbintcp_writer.specs.Packets.{reason_ground, login_ground, login_payload};
ghost use Rattle.host_answers.specs.Answers.{unless_sized, RefusesOnly, AnswersWriting};

use host_answers::WRITTEN_WORDS;
use soupbintcp_writer::client::Login;
use soupbintcp_writer::{client, server};
use text_fields::sound::{PASSWORD_SIZE, USERNAME_SIZE};
use wire::kinds::{SESSION_SIZE, SequenceNumber};
use wire::{parts, refusal};

// The code of a field that isn't written.
const NOT_WRITTEN: u32 = refusal::FIELD_NOT_WRITTEN.number as u32;

// Debug, of either end.
#[unsafe(no_mangle)]
pub extern "C" fn eiderwagon_soup_write_debug(
    payload: &[u8],
    out: &mut [u8],
    words: &mut [u64],
) -> u32
    ensures answers_writing { AnswersWriting result words.old words.new out.old
        out.new (payload_ground payload.now)
        (encoded letter_debug payload.now) }
    ensures refuses { RefusesOnly result (22 ∷ 41 ∷ []) }
{
    let from = host_answers::lent_from(words.len() < WRITTEN_WORDS, out.len());
    let written = server::write_debug(&mut out[from..], payload);
    host_answers::answer_written(words, false, written)
}

// Login accepted.
#[unsafe(no_mangle)]
pub extern "C" fn eiderwagon_soup_write_accepted(
    session: &[u8],
    number: u64,
    out: &mut [u8],
    words: &mut [u64],
) -> u32
    ensures answers_writing { AnswersWriting result words.old words.new out.old
        out.new (unless_sized (length session.now) session_size field_not_written
        (accepted_ground (first_bytes session_size session.now) number))
        (encoded letter_accepted (accepted_payload (first_bytes session_size session.now) number)) }
    ensures refuses { RefusesOnly result (46 ∷ 41 ∷ []) }
{
    if session.len() != SESSION_SIZE {
        return NOT_WRITTEN;
    }
    let name = parts::first(session);
    let from = host_answers::lent_from(words.len() < WRITTEN_WORDS, out.len());
    let written = server::write_accepted(&mut out[from..], name, SequenceNumber(number));
    host_answers::answer_written(words, false, written)
}

// Login rejected.
#[unsafe(no_mangle)]
pub extern "C" fn eiderwagon_soup_write_rejected(
    reason: u8,
    out: &mut [u8],
    words: &mut [u64],
) -> u32
    ensures answers_writing { AnswersWriting result words.old words.new out.old
        out.new (reason_ground reason) (encoded letter_rejected (reason ∷ [])) }
    ensures refuses { RefusesOnly result (46 ∷ 41 ∷ []) }
{
    let from = host_answers::lent_from(words.len() < WRITTEN_WORDS, out.len());
    let written = server::write_rejected(&mut out[from..], reason);
    host_answers::answer_written(words, false, written)
}

// A sequenced message.
#[unsafe(no_mangle)]
pub extern "C" fn eiderwagon_soup_write_sequenced(
    payload: &[u8],
    out: &mut [u8],
    words: &mut [u64],
) -> u32
    ensures answers_writing { AnswersWriting result words.old words.new out.old
        out.new (payload_ground payload.now)
        (encoded letter_sequenced payload.now) }
    ensures refuses { RefusesOnly result (22 ∷ 41 ∷ []) }
{
    let from = host_answers::lent_from(words.len() < WRITTEN_WORDS, out.len());
    let written = server::write_sequenced(&mut out[from..], payload);
    host_answers::answer_written(words, false, written)
}

// A heartbeat of the server.
#[unsafe(no_mangle)]
pub extern "C" fn eiderwagon_soup_write_server_heartbeat(out: &mut [u8], words: &mut [u64]) -> u32
    ensures answers_writing { AnswersWriting result words.old words.new out.old
        out.new 0 (encoded letter_server_heartbeat []) }
    ensures refuses { RefusesOnly result (41 ∷ []) }
{
    let from = host_answers::lent_from(words.len() < WRITTEN_WORDS, out.len());
    let written = server::write_heartbeat(&mut out[from..]);
    host_answers::answer_written(words, false, written)
}

// End of session.
#[unsafe(no_mangle)]
pub extern "C" fn eiderwagon_soup_write_end(out: &mut [u8], words: &mut [u64]) -> u32
    ensures answers_writing { AnswersWriting result words.old words.new out.old
        out.new 0 (encoded letter_end []) }
    ensures refuses { RefusesOnly result (41 ∷ []) }
{
    let from = host_answers::lent_from(words.len() < WRITTEN_WORDS, out.len());
    let written = server::write_end_of_session(&mut out[from..]);
    host_answers::answer_written(words, false, written)
}

// Login request.
#[unsafe(no_mangle)]
pub extern "C" fn eiderwagon_soup_write_login(
    username: &[u8],
    password: &[u8],
    session: &[u8],
    number: u64,
    out: &mut [u8],
    words: &mut [u64],
) -> u32
    ensures answers_writing { AnswersWriting result words.old words.new out.old
        out.new (unless_sized (length username.now) username_size field_not_written
        (unless_sized (length password.now) password_size field_not_written
        (unless_sized (length session.now) session_size field_not_written
        (login_ground (first_bytes username_size username.now)
        (first_bytes password_size password.now) (first_bytes session_size session.now)))))
        (encoded letter_login (login_payload (first_bytes username_size username.now)
        (first_bytes password_size password.now) (first_bytes session_size session.now)
        number)) }
    ensures refuses { RefusesOnly result (46 ∷ 41 ∷ []) }
{
    if username.len() != USERNAME_SIZE {
        return NOT_WRITTEN;
    }
    if password.len() != PASSWORD_SIZE {
        return NOT_WRITTEN;
    }
    if session.len() != SESSION_SIZE {
        return NOT_WRITTEN;
    }
    let login = Login {
        username: parts::first(username),
        password: parts::first(password),
        session: parts::first(session),
        number: SequenceNumber(number),
    };
    let from = host_answers::lent_from(words.len() < WRITTEN_WORDS, out.len());
    let written = client::write_login(&mut out[from..], login);
    host_answers::answer_written(words, false, written)
}

// An unsequenced message.
#[unsafe(no_mangle)]
pub extern "C" fn eiderwagon_soup_write_unsequenced(
    payload: &[u8],
    out: &mut [u8],
    words: &mut [u64],
) -> u32
    ensures answers_writing { AnswersWriting result words.old words.new out.old
        out.new (payload_ground payload.now)
        (encoded letter_unsequenced payload.now) }
    ensures refuses { RefusesOnly result (22 ∷ 41 ∷ []) }
{
    let from = host_answers::lent_from(words.len() < WRITTEN_WORDS, out.len());
    let written = client::write_unsequenced(&mut out[from..], payload);
    host_answers::answer_written(words, false, written)
}

// A heartbeat of the client.
#[unsafe(no_mangle)]
pub extern "C" fn eiderwagon_soup_write_client_heartbeat(out: &mut [u8], words: &mut [u64]) -> u32
    ensures answers_writing { AnswersWriting result words.old words.new out.old
        out.new 0 (encoded letter_client_heartbeat []) }
    ensures refuses { RefusesOnly result (41 ∷ []) }
{
    let from = host_answers::lent_from(words.len() < WRITTEN_WORDS, out.len());
    let written = client::write_heartbeat(&mut out[from..]);
    host_answers::answer_written(words, false, written)
}

// Logout.
#[unsafe(no_mangle)]
pub extern "C" fn eiderwagon_soup_write_logout(out: &mut [u8], words: &mut [u64]) -> u32
    ensures answers_writing { AnswersWriting result words.old words.new out.old
        out.new 0 (encoded letter_logout []) }
    ensures refuses { RefusesOnly result (41 ∷ []) }
{
    let from = host_answers::lent_from(words.len() < WRITTEN_WORDS, out.len());
    let written = client::write_logout(&mut out[from..]);
    host_answers::answer_written(words, false, written)
}
