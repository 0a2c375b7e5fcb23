// A server's step over a table of account records: `a` and `n` are the table as in a lookup, `b` is the stream, `c` the
// server's session, `m` its last number and `s` the first letter of its state.
use crate::lookups;
use soupbintcp_server::server::{Server, ServerState, Stepped};
use soupbintcp_session::answer::Answer;
use vector_lines::{parse, print};
use wire::kinds::{ByteOffset, SESSION_SIZE, SequenceNumber};

// Room for a stream.
const MOST_BYTES: usize = 8192;

fn state(letter: u8) -> ServerState {
    match letter {
        b'w' => ServerState::Waiting,
        b'i' => ServerState::In,
        _ => ServerState::Closed,
    }
}

fn told_state(rt: &impl Print, state: ServerState) {
    match state {
        ServerState::Waiting => print::text(rt, b" waiting"),
        ServerState::In => print::text(rt, b" in"),
        ServerState::Closed => print::text(rt, b" closed"),
    }
}

fn told_place(rt: &impl Print, at: ByteOffset, length: usize) {
    print::number(rt, b" at=", at.0 as u64);
    print::number(rt, b" length=", length as u64);
}

fn told_answer(rt: &impl Print, answer: Answer) {
    match answer {
        Answer::NeedMore => print::text(rt, b"need more"),
        Answer::Accepted { number } => print::number(rt, b"accepted number=", number.0),
        Answer::Rejected { reason } => print::number(rt, b"rejected reason=", reason as u64),
        Answer::Sequenced { number, at, length } => {
            print::number(rt, b"sequenced number=", number.0);
            told_place(rt, at, length);
        }
        Answer::Unsequenced { at, length } => {
            print::text(rt, b"unsequenced");
            told_place(rt, at, length);
        }
        Answer::Heartbeat => print::text(rt, b"heartbeat"),
        Answer::Debug => print::text(rt, b"debug"),
        Answer::LoggedOut => print::text(rt, b"logged out"),
        Answer::EndOfSession => print::text(rt, b"end of session"),
        Answer::Refused(r) => print::number(rt, b"refused ", r.number as u64),
    }
}

// Prints an answer, how many bytes it took, and the server after it.
fn told(rt: &impl Print, stepped: Stepped) {
    let Stepped {
        answer,
        size,
        server,
    } = stepped;
    told_answer(rt, answer);
    print::number(rt, b" size=", size as u64);
    print::text(rt, b" after ");
    print::bytes(rt, &server.session);
    print::number(rt, b" ", server.last.0);
    told_state(rt, server.state);
}

// The server that the fields tell, in any state.
fn server(fields: &[u8]) -> Server {
    let mut session = [0u8; SESSION_SIZE];
    parse::bytes(fields, b'c', &mut session);
    let mut letter = [0u8; 1];
    parse::bytes(fields, b's', &mut letter);
    Server {
        session,
        last: SequenceNumber(parse::number(fields, b'm')),
        state: state(letter[0]),
    }
}

fn step(rt: &impl Print, fields: &[u8], table: &[u8], stream: &[u8]) {
    told(
        rt,
        accounts::step_among(
            server(fields),
            lookups::by_value(table),
            lookups::used(fields),
            stream,
        ),
    );
}

pub(crate) fn ask(rt: &impl Print, fields: &[u8]) {
    let mut table = [0u8; lookups::TABLE_SIZE];
    parse::bytes(fields, b'a', &mut table);
    let mut room = [0u8; MOST_BYTES];
    let n = parse::bytes(fields, b'b', &mut room);
    step(rt, fields, &table, &room[..n]);
}
