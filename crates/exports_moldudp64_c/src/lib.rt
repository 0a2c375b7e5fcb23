// MoldUDP64 packets for hosts in other languages. `include/eiderwagon.h` says what each function takes and answers.
// Made by tools/library.py from the crate exports_moldudp64, whose functions it calls.
#![tactic(auto)]

ghost use Rattle.std.specs.Prelude.{[], ◌∷◌};
ghost use Rattle.moldudp64.specs.Downstream.{downstream_of};
ghost use Rattle.host_answers.specs.Answers.{RefusesOnly, Answers, AnswersWith, padded, named, AnswersWriting};
ghost use Rattle.exports_moldudp64.specs.Datagrams.{kind_number, DatagramsApart};
ghost use Rattle.moldudp64_messages.specs.Cursor.{locate_of, start_of};
ghost use Rattle.host_cursor.specs.Calls.{located_words, SetsCursor, NextMessage};
ghost use Rattle.moldudp64.specs.Request.{request_of, request_ground};
ghost use Rattle.wire.specs.Bounds.{session_size};
ghost use Rattle.wire.specs.Parts.{first_bytes};
ghost use Rattle.moldudp64.specs.Header.{header};
ghost use Rattle.moldudp64.specs.Written.{encoded, encoded_end};
ghost use Rattle.moldudp64_writer.specs.Writer.{encoded_cut, packet_ground, end_ground};

// Reads a datagram.
#[unsafe(no_mangle)]
pub extern "C" fn eiderwagon_mold_read(datagram: &[u8], words: &mut [u64]) -> u32
    ensures answers { Answers result words.old words.new kind_number 3
        (downstream_of datagram.now) }
    ensures refuses { RefusesOnly result (11 ∷ 12 ∷ 13 ∷ 14 ∷ 15 ∷ 16 ∷ 41 ∷ []) }
    ensures tells_apart { DatagramsApart }
{
    exports_moldudp64::datagrams::eiderwagon_mold_read(datagram, words)
}

// Finds one message by its place.
#[unsafe(no_mangle)]
pub extern "C" fn eiderwagon_mold_locate(datagram: &[u8], place: u16, words: &mut [u64]) -> u32
    ensures answers_with { AnswersWith result words.old words.new 0
        (located_words (locate_of datagram.now place)) }
    ensures refuses { RefusesOnly result (41 ∷ []) }
{
    exports_moldudp64::messages::eiderwagon_mold_locate(datagram, place, words)
}

// Sets a cursor to the first message.
#[unsafe(no_mangle)]
pub extern "C" fn eiderwagon_mold_walk(datagram: &[u8], cursor: &mut [u8]) -> u32
    ensures sets_cursor { SetsCursor result cursor.old cursor.new (start_of datagram.now) }
    ensures refuses { RefusesOnly result (41 ∷ []) }
{
    exports_moldudp64::messages::eiderwagon_mold_walk(datagram, cursor)
}

// Answers the message at a cursor, and moves the cursor to the next one.
#[unsafe(no_mangle)]
pub extern "C" fn eiderwagon_mold_next(cursor: &mut [u8], datagram: &[u8], words: &mut [u64]) -> u32
    ensures next_message { NextMessage result cursor.old cursor.new datagram.now
        words.old words.new }
    ensures refuses { RefusesOnly result (41 ∷ []) }
{
    exports_moldudp64::messages::eiderwagon_mold_next(cursor, datagram, words)
}

// Reads a request.
#[unsafe(no_mangle)]
pub extern "C" fn eiderwagon_mold_read_request(request: &[u8], words: &mut [u64]) -> u32
    ensures answers_with { AnswersWith result words.old words.new
        (request_of request.now).refusal (padded 2 (request_of request.now).values) }
    ensures refuses { RefusesOnly result (47 ∷ 13 ∷ 48 ∷ 41 ∷ []) }
{
    exports_moldudp64::requests::eiderwagon_mold_read_request(request, words)
}

// Writes data; no lengths make a heartbeat.
#[unsafe(no_mangle)]
pub extern "C" fn eiderwagon_mold_write_data(
    session: &[u8],
    first: u64,
    lengths: &[u16],
    joined: &[u8],
    out: &mut [u8],
    words: &mut [u64],
) -> u32
    ensures answers_writing { AnswersWriting result words.old words.new out.old
        out.new
        (named session.now (packet_ground first lengths.now joined.now))
        (encoded_cut (first_bytes session_size session.now) first lengths.now
        joined.now) }
    ensures refuses { RefusesOnly result (42 ∷ 44 ∷ 13 ∷ 14 ∷ 12 ∷ 41 ∷ []) }
{
    exports_moldudp64::writers::eiderwagon_mold_write_data(
        session, first, lengths, joined, out, words,
    )
}

// Writes a heartbeat: a packet of no messages.
#[unsafe(no_mangle)]
pub extern "C" fn eiderwagon_mold_write_heartbeat(
    session: &[u8],
    next: u64,
    out: &mut [u8],
    words: &mut [u64],
) -> u32
    ensures answers_writing { AnswersWriting result words.old words.new out.old
        out.new (named session.now (packet_ground next [] []))
        (encoded (first_bytes session_size session.now) next []) }
    ensures refuses { RefusesOnly result (13 ∷ 41 ∷ []) }
{
    exports_moldudp64::writers::eiderwagon_mold_write_heartbeat(session, next, out, words)
}

// Writes an end of session.
#[unsafe(no_mangle)]
pub extern "C" fn eiderwagon_mold_write_end(
    session: &[u8],
    next: u64,
    out: &mut [u8],
    words: &mut [u64],
) -> u32
    ensures answers_writing { AnswersWriting result words.old words.new out.old
        out.new (named session.now (end_ground next))
        (encoded_end (first_bytes session_size session.now) next) }
    ensures refuses { RefusesOnly result (13 ∷ 41 ∷ []) }
{
    exports_moldudp64::writers::eiderwagon_mold_write_end(session, next, out, words)
}

// Writes a request.
#[unsafe(no_mangle)]
pub extern "C" fn eiderwagon_mold_write_request(
    session: &[u8],
    first: u64,
    count: u16,
    out: &mut [u8],
    words: &mut [u64],
) -> u32
    ensures answers_writing { AnswersWriting result words.old words.new out.old
        out.new (named session.now (request_ground first count))
        (header (first_bytes session_size session.now) first count) }
    ensures refuses { RefusesOnly result (13 ∷ 48 ∷ 41 ∷ []) }
{
    exports_moldudp64::writers::eiderwagon_mold_write_request(session, first, count, out, words)
}
