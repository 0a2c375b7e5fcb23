// The branch store.
use crate::mold::{MOST_LENGTHS, lengths};
use vector_lines::NO_FUNCTION;

// The array of lengths is lent whole, so that no other proof meets its size.
fn answer(
    session: &[u8],
    first: u64,
    pairs: &[u8],
    joined: &[u8],
    size: u64,
    request: &[u8],
    out: &mut [u8],
    words: &mut [u64],
    room: &mut [u16],
) -> u32 {
    let n = lengths(pairs, room);
    exports_store::eiderwagon_store_answer(
        session,
        first,
        &room[..n],
        joined,
        size,
        request,
        out,
        words,
    )
}

pub fn call(
    function: u64,
    a: &[u8],
    b: &[u8],
    c: &[u8],
    d: &[u8],
    n: u64,
    m: u64,
    lent: &mut [u8],
    words: &mut [u64],
) -> u32 {
    let mut room = [0u16; MOST_LENGTHS];
    match function {
        120 => answer(a, n, b, c, m, d, lent, words, &mut room),
        _ => NO_FUNCTION,
    }
}
