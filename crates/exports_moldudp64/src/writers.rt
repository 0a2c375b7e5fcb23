// Datagrams and requests, written. Document 01 has no ground for a session of another size: it is 41 here.
#![tactic(auto, using(crate::proofs::Rules::names))]

ghost use Rattle.std.specs.Prelude.{[], ◌∷◌};
ghost use Rattle.wire.specs.Bounds.{session_size};
ghost use Rattle.wire.specs.Parts.{first_bytes};
ghost use Rattle.moldudp64.specs.Header.{header};
ghost use Rattle.moldudp64.specs.Request.{request_ground};
ghost use Rattle.moldudp64.specs.Written.{encoded, encoded_end};
ghost use Rattle.moldudp64_writer.specs.Writer.{encoded_cut, packet_ground, end_ground};
ghost use Rattle.host_answers.specs.Answers.{named, RefusesOnly, AnswersWriting};

use host_answers::WRITTEN_WORDS;
use moldudp64_writer::{downstream, request};
use wire::kinds::{MessageCount, SESSION_SIZE, SequenceNumber};
use wire::parts;

// Writes data; no lengths make a heartbeat.
#[unsafe(no_mangle)]
pub extern "C" fn eiderwagon_mold_write_data(
    session: &[u8],
    first: u64,
    lengths: &[u16],
    joined: &[u8],
    out: &mut [u8],
    words: &mut [u64],
) -> u32
    ensures answers_writing { AnswersWriting result words.old words.new out.old
        out.new
        (named session.now (packet_ground first lengths.now joined.now))
        (encoded_cut (first_bytes session_size session.now) first lengths.now
        joined.now) }
    ensures refuses { RefusesOnly result (42 ∷ 44 ∷ 13 ∷ 14 ∷ 12 ∷ 41 ∷ []) }
{
    let unnamed = session.len() != SESSION_SIZE;
    let from = host_answers::lent_from(unnamed | (words.len() < WRITTEN_WORDS), out.len());
    let name = parts::first(session);
    let written = downstream::write_messages(
        &mut out[from..],
        name,
        SequenceNumber(first),
        lengths,
        joined,
    );
    host_answers::answer_written(words, unnamed, written)
}

// Writes a heartbeat: a packet of no messages.
#[unsafe(no_mangle)]
pub extern "C" fn eiderwagon_mold_write_heartbeat(
    session: &[u8],
    next: u64,
    out: &mut [u8],
    words: &mut [u64],
) -> u32
    ensures answers_writing { AnswersWriting result words.old words.new out.old
        out.new (named session.now (packet_ground next [] []))
        (encoded (first_bytes session_size session.now) next []) }
    ensures refuses { RefusesOnly result (13 ∷ 41 ∷ []) }
{
    let unnamed = session.len() != SESSION_SIZE;
    let from = host_answers::lent_from(unnamed | (words.len() < WRITTEN_WORDS), out.len());
    let name = parts::first(session);
    let lengths = [0u16; 1];
    let written = downstream::write_messages(
        &mut out[from..],
        name,
        SequenceNumber(next),
        &lengths[..0],
        &session[..0],
    );
    host_answers::answer_written(words, unnamed, written)
}

// Writes an end of session.
#[unsafe(no_mangle)]
pub extern "C" fn eiderwagon_mold_write_end(
    session: &[u8],
    next: u64,
    out: &mut [u8],
    words: &mut [u64],
) -> u32
    ensures answers_writing { AnswersWriting result words.old words.new out.old
        out.new (named session.now (end_ground next))
        (encoded_end (first_bytes session_size session.now) next) }
    ensures refuses { RefusesOnly result (13 ∷ 41 ∷ []) }
{
    let unnamed = session.len() != SESSION_SIZE;
    let from = host_answers::lent_from(unnamed | (words.len() < WRITTEN_WORDS), out.len());
    let name = parts::first(session);
    let written = downstream::write_end_of_session(&mut out[from..], name, SequenceNumber(next));
    host_answers::answer_written(words, unnamed, written)
}

// Writes a request.
#[unsafe(no_mangle)]
pub extern "C" fn eiderwagon_mold_write_request(
    session: &[u8],
    first: u64,
    count: u16,
    out: &mut [u8],
    words: &mut [u64],
) -> u32
    ensures answers_writing { AnswersWriting result words.old words.new out.old
        out.new (named session.now (request_ground first count))
        (header (first_bytes session_size session.now) first count) }
    ensures refuses { RefusesOnly result (13 ∷ 48 ∷ 41 ∷ []) }
{
    let unnamed = session.len() != SESSION_SIZE;
    let from = host_answers::lent_from(unnamed | (words.len() < WRITTEN_WORDS), out.len());
    let name = parts::first(session);
    let written = request::write(
        &mut out[from..],
        name,
        SequenceNumber(first),
        MessageCount(count),
    );
    host_answers::answer_written(words, unnamed, written)
}
