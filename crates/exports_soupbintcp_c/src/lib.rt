// SoupBinTCP packets for hosts in other languages. `include/eiderwagon.h` says what each function takes and answers.
// Made by tools/library.py from the crate exports_soupbintcp, whose functions it calls.
#![tactic(auto)]

ghost use Rattle.std.specs.Prelude.{[], ◌∷◌, length};
ghost use Rattle.host_answers.specs.Answers.{RefusesOnly, Answers, unless_sized, AnswersWriting};
ghost use Rattle.soupbintcp.specs.Letters.{letter_debug, letter_accepted, letter_rejected, letter_sequenced};
ghost use Rattle.soupbintcp.specs.Letters.{letter_server_heartbeat, letter_end, letter_login, letter_unsequenced};
ghost use Rattle.soupbintcp.specs.Letters.{letter_client_heartbeat, letter_logout};
ghost use Rattle.soupbintcp.specs.Front.{front_of};
ghost use Rattle.host_sender.specs.Sender.{sender_of};
ghost use Rattle.exports_soupbintcp.specs.Packets.{front_number, FrontsApart};
ghost use Rattle.wire.specs.Bounds.{session_size};
ghost use Rattle.wire.specs.Refusals.{field_not_written};
ghost use Rattle.wire.specs.Parts.{first_bytes};
ghost use Rattle.text_fields.specs.Sound.{username_size, password_size};
ghost use Rattle.soupbintcp_writer.specs.Packets.{encoded, payload_ground, accepted_ground, accepted_payload};
ghost use Rattle.soupbintcp_writer.specs.Packets.{reason_ground, login_ground, login_payload};

// Reads the packet at the front of a stream.
#[unsafe(no_mangle)]
pub extern "C" fn eiderwagon_soup_read(stream: &[u8], sender: u8, words: &mut [u64]) -> u32
    ensures answers { Answers result words.old words.new front_number 3
        (front_of (sender_of sender) stream.now) }
    ensures refuses { RefusesOnly result (21 ∷ 22 ∷ 23 ∷ 24 ∷ 25 ∷ 41 ∷ []) }
    ensures tells_apart { FrontsApart }
{
    exports_soupbintcp::packets::eiderwagon_soup_read(stream, sender, words)
}

// Debug, of either end.
#[unsafe(no_mangle)]
pub extern "C" fn eiderwagon_soup_write_debug(
    payload: &[u8],
    out: &mut [u8],
    words: &mut [u64],
) -> u32
    ensures answers_writing { AnswersWriting result words.old words.new out.old
        out.new (payload_ground payload.now)
        (encoded letter_debug payload.now) }
    ensures refuses { RefusesOnly result (22 ∷ 41 ∷ []) }
{
    exports_soupbintcp::writers::eiderwagon_soup_write_debug(payload, out, words)
}

// Login accepted.
#[unsafe(no_mangle)]
pub extern "C" fn eiderwagon_soup_write_accepted(
    session: &[u8],
    number: u64,
    out: &mut [u8],
    words: &mut [u64],
) -> u32
    ensures answers_writing { AnswersWriting result words.old words.new out.old
        out.new (unless_sized (length session.now) session_size field_not_written
        (accepted_ground (first_bytes session_size session.now) number))
        (encoded letter_accepted (accepted_payload (first_bytes session_size session.now) number)) }
    ensures refuses { RefusesOnly result (46 ∷ 41 ∷ []) }
{
    exports_soupbintcp::writers::eiderwagon_soup_write_accepted(session, number, out, words)
}

// Login rejected.
#[unsafe(no_mangle)]
pub extern "C" fn eiderwagon_soup_write_rejected(
    reason: u8,
    out: &mut [u8],
    words: &mut [u64],
) -> u32
    ensures answers_writing { AnswersWriting result words.old words.new out.old
        out.new (reason_ground reason) (encoded letter_rejected (reason ∷ [])) }
    ensures refuses { RefusesOnly result (46 ∷ 41 ∷ []) }
{
    exports_soupbintcp::writers::eiderwagon_soup_write_rejected(reason, out, words)
}

// A sequenced message.
#[unsafe(no_mangle)]
pub extern "C" fn eiderwagon_soup_write_sequenced(
    payload: &[u8],
    out: &mut [u8],
    words: &mut [u64],
) -> u32
    ensures answers_writing { AnswersWriting result words.old words.new out.old
        out.new (payload_ground payload.now)
        (encoded letter_sequenced payload.now) }
    ensures refuses { RefusesOnly result (22 ∷ 41 ∷ []) }
{
    exports_soupbintcp::writers::eiderwagon_soup_write_sequenced(payload, out, words)
}

// A heartbeat of the server.
#[unsafe(no_mangle)]
pub extern "C" fn eiderwagon_soup_write_server_heartbeat(out: &mut [u8], words: &mut [u64]) -> u32
    ensures answers_writing { AnswersWriting result words.old words.new out.old
        out.new 0 (encoded letter_server_heartbeat []) }
    ensures refuses { RefusesOnly result (41 ∷ []) }
{
    exports_soupbintcp::writers::eiderwagon_soup_write_server_heartbeat(out, words)
}

// End of session.
#[unsafe(no_mangle)]
pub extern "C" fn eiderwagon_soup_write_end(out: &mut [u8], words: &mut [u64]) -> u32
    ensures answers_writing { AnswersWriting result words.old words.new out.old
        out.new 0 (encoded letter_end []) }
    ensures refuses { RefusesOnly result (41 ∷ []) }
{
    exports_soupbintcp::writers::eiderwagon_soup_write_end(out, words)
}

// Login request.
#[unsafe(no_mangle)]
pub extern "C" fn eiderwagon_soup_write_login(
    username: &[u8],
    password: &[u8],
    session: &[u8],
    number: u64,
    out: &mut [u8],
    words: &mut [u64],
) -> u32
    ensures answers_writing { AnswersWriting result words.old words.new out.old
        out.new (unless_sized (length username.now) username_size field_not_written
        (unless_sized (length password.now) password_size field_not_written
        (unless_sized (length session.now) session_size field_not_written
        (login_ground (first_bytes username_size username.now)
        (first_bytes password_size password.now) (first_bytes session_size session.now)))))
        (encoded letter_login (login_payload (first_bytes username_size username.now)
        (first_bytes password_size password.now) (first_bytes session_size session.now)
        number)) }
    ensures refuses { RefusesOnly result (46 ∷ 41 ∷ []) }
{
    exports_soupbintcp::writers::eiderwagon_soup_write_login(
        username, password, session, number, out, words,
    )
}

// An unsequenced message.
#[unsafe(no_mangle)]
pub extern "C" fn eiderwagon_soup_write_unsequenced(
    payload: &[u8],
    out: &mut [u8],
    words: &mut [u64],
) -> u32
    ensures answers_writing { AnswersWriting result words.old words.new out.old
        out.new (payload_ground payload.now)
        (encoded letter_unsequenced payload.now) }
    ensures refuses { RefusesOnly result (22 ∷ 41 ∷ []) }
{
    exports_soupbintcp::writers::eiderwagon_soup_write_unsequenced(payload, out, words)
}

// A heartbeat of the client.
#[unsafe(no_mangle)]
pub extern "C" fn eiderwagon_soup_write_client_heartbeat(out: &mut [u8], words: &mut [u64]) -> u32
    ensures answers_writing { AnswersWriting result words.old words.new out.old
        out.new 0 (encoded letter_client_heartbeat []) }
    ensures refuses { RefusesOnly result (41 ∷ []) }
{
    exports_soupbintcp::writers::eiderwagon_soup_write_client_heartbeat(out, words)
}

// Logout.
#[unsafe(no_mangle)]
pub extern "C" fn eiderwagon_soup_write_logout(out: &mut [u8], words: &mut [u64]) -> u32
    ensures answers_writing { AnswersWriting result words.old words.new out.old
        out.new 0 (encoded letter_logout []) }
    ensures refuses { RefusesOnly result (41 ∷ []) }
{
    exports_soupbintcp::writers::eiderwagon_soup_write_logout(out, words)
}
