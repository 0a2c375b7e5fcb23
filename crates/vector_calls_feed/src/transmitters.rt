// Our own transmitter.
use crate::mold::{MOST_LENGTHS, lengths};
use vector_lines::NO_FUNCTION;

fn packet(
    session: &[u8],
    first: u64,
    pairs: &[u8],
    joined: &[u8],
    size: u64,
    place: u64,
    out: &mut [u8],
    words: &mut [u64],
    room: &mut [u16],
) -> u32 {
    let n = lengths(pairs, room);
    exports_transmitter::eiderwagon_transmitter_packet(
        session,
        first,
        &room[..n],
        joined,
        size,
        place,
        out,
        words,
    )
}

fn start(
    first: u64,
    pairs: &[u8],
    joined: &[u8],
    size: u64,
    state: &mut [u8],
    room: &mut [u16],
) -> u32 {
    let n = lengths(pairs, room);
    exports_transmitter::eiderwagon_transmitter_start(first, &room[..n], joined, size, state)
}

fn next(
    session: &[u8],
    first: u64,
    pairs: &[u8],
    joined: &[u8],
    size: u64,
    state: &mut [u8],
    out: &mut [u8],
    words: &mut [u64],
    room: &mut [u16],
) -> u32 {
    let n = lengths(pairs, room);
    exports_transmitter::eiderwagon_transmitter_next(
        session,
        first,
        &room[..n],
        joined,
        size,
        state,
        out,
        words,
    )
}

// A packet by turns is written into `d`, since its state is what is lent.
pub fn call(
    function: u64,
    a: &[u8],
    b: &[u8],
    c: &[u8],
    d: &mut [u8],
    n: u64,
    m: u64,
    p: u64,
    lent: &mut [u8],
    words: &mut [u64],
) -> u32 {
    let mut room = [0u16; MOST_LENGTHS];
    match function {
        140 => packet(a, n, b, c, m, p, lent, words, &mut room),
        141 => start(n, a, b, m, lent, &mut room),
        142 => next(a, n, b, c, m, lent, d, words, &mut room),
        _ => NO_FUNCTION,
    }
}
