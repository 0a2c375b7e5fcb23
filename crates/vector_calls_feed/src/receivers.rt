// The MoldUDP64 receiver.
use vector_lines::NO_FUNCTION;
use vector_lines::narrow::low16;
use vector_lines::parse::least;
use vector_lines::wide::{FILLED, MOST_WORDS, WORD_SIZE, show};

// Takes a datagram, and shows the places that it lays.
fn deliver(
    state: &mut [u8],
    datagram: &[u8],
    words: &mut [u64],
    places: &mut [u64],
    out: &mut [u8],
) -> u32 {
    let code = exports_deliver::eiderwagon_receiver_deliver(state, datagram, words, places);
    show(places, out);
    code
}

// Lends as many words for places as the bytes `d` have room for. The array of words is lent whole, so that no other
// proof meets its size.
fn deliver_into(
    state: &mut [u8],
    datagram: &[u8],
    words: &mut [u64],
    room: &mut [u64],
    out: &mut [u8],
) -> u32 {
    let n = least((out.len() / WORD_SIZE) as u64, room);
    deliver(state, datagram, words, &mut room[..n], out)
}

// Places are shown in `d`, eight bytes for a word, since the state is what is lent.
pub fn call(
    function: u64,
    a: &[u8],
    d: &mut [u8],
    n: u64,
    m: u64,
    lent: &mut [u8],
    words: &mut [u64],
) -> u32 {
    let mut room = [FILLED; MOST_WORDS];
    match function {
        20 => exports_receiver::eiderwagon_receiver_start(a, n, low16(m), lent),
        21 => exports_receiver::eiderwagon_receiver_take(lent, a, words),
        22 => exports_receiver::eiderwagon_receiver_walk(a, low16(n), low16(m), lent),
        23 => deliver_into(lent, a, words, &mut room, d),
        _ => NO_FUNCTION,
    }
}
