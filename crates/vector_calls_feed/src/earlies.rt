// The receiver that keeps early messages.
use exports_early_messages::walks;
use vector_lines::NO_FUNCTION;
use vector_lines::narrow::low16;
use vector_lines::parse::least;
use vector_lines::wide::{FILLED, MOST_WORDS, WORD_SIZE, show};

// Takes a datagram, and shows the places that it lays.
fn deliver_at(
    state: &mut [u8],
    slots: &mut [u8],
    datagram: &[u8],
    words: &mut [u64],
    places: &mut [u64],
    out: &mut [u8],
) -> u32 {
    let code = exports_early_deliver::eiderwagon_early_deliver(
        state, slots, datagram, words, places,
    );
    show(places, out);
    code
}

// Lends as many words for places as the bytes `d` have room for. The array of words is lent whole, so that no other
// proof meets its size.
fn deliver_into(
    state: &mut [u8],
    slots: &mut [u8],
    datagram: &[u8],
    words: &mut [u64],
    room: &mut [u64],
    out: &mut [u8],
) -> u32 {
    let n = least((out.len() / WORD_SIZE) as u64, room);
    deliver_at(state, slots, datagram, words, &mut room[..n], out)
}

// Slots are `c`, and a receiver that is only read is `b`. Places are shown in `d`, eight bytes for a word.
pub fn call(
    function: u64,
    a: &[u8],
    b: &[u8],
    c: &mut [u8],
    d: &mut [u8],
    n: u64,
    m: u64,
    lent: &mut [u8],
    words: &mut [u64],
) -> u32 {
    let mut room = [FILLED; MOST_WORDS];
    match function {
        160 => exports_early::eiderwagon_early_start(a, n, low16(m), lent),
        161 => exports_early::eiderwagon_early_take(lent, c, a, words),
        162 => exports_early_messages::eiderwagon_early_count(b, c, a, words),
        163 => exports_early_messages::eiderwagon_early_locate(b, c, a, low16(n), words),
        164 => walks::eiderwagon_early_walk(b, c, a, lent),
        165 => walks::eiderwagon_early_next(lent, b, c, a, words),
        166 => deliver_into(lent, c, a, words, &mut room, d),
        _ => NO_FUNCTION,
    }
}
