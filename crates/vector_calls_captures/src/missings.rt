// What is missing from a capture. The words of the edges are `c`, eight bytes for each.
use vector_lines::NO_FUNCTION;
use vector_lines::parse::least;
use vector_lines::wide::{FILLED, MOST_WORDS, WORD_SIZE, show};

// Lays bytes as words.
fn lay(bytes: &[u8], words: &mut [u64]) {
    for (word, place) in words.iter_mut().zip(bytes.as_chunks::<WORD_SIZE>().0) {
        *word = u64::from_be_bytes(*place);
    }
}

fn call_at(
    function: u64,
    a: &[u8],
    edges: &mut [u64],
    n: u64,
    lent: &mut [u8],
    words: &mut [u64],
) -> u32 {
    match function {
        180 => exports_missing::eiderwagon_missing_start(lent),
        181 => exports_missing::eiderwagon_missing_feed(lent, edges, a, words),
        182 => exports_missing::eiderwagon_missing_finish(lent, edges, a),
        183 => exports_missing::eiderwagon_missing_count(a, edges, words),
        184 => exports_missing::eiderwagon_missing_range(a, edges, n, words),
        185 => exports_missing::eiderwagon_missing_write(a, edges, lent, words),
        _ => NO_FUNCTION,
    }
}

// Calls with the edges that the bytes are, and shows what became of them.
fn call_with(
    function: u64,
    a: &[u8],
    c: &mut [u8],
    edges: &mut [u64],
    n: u64,
    lent: &mut [u8],
    words: &mut [u64],
) -> u32 {
    lay(c, edges);
    let code = call_at(function, a, edges, n, lent, words);
    show(edges, c);
    code
}

// Lends as many words as the bytes are. The array of words is lent whole, so that no other proof meets its size.
fn call_in(
    function: u64,
    a: &[u8],
    c: &mut [u8],
    room: &mut [u64],
    n: u64,
    lent: &mut [u8],
    words: &mut [u64],
) -> u32 {
    let k = least((c.len() / WORD_SIZE) as u64, room);
    call_with(function, a, c, &mut room[..k], n, lent, words)
}

pub fn call(
    function: u64,
    a: &[u8],
    c: &mut [u8],
    n: u64,
    lent: &mut [u8],
    words: &mut [u64],
) -> u32 {
    let mut room = [FILLED; MOST_WORDS];
    call_in(function, a, c, &mut room, n, lent, words)
}
