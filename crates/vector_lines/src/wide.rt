// Lent words shown as bytes, eight for each, the highest first.

// As many words, of places or of edges, as a line's bytes have room for.
pub const MOST_WORDS: usize = 16384;

// The bytes that a word is shown as.
pub const WORD_SIZE: usize = 8;

// What a byte holds before the call, so that one that is not laid shows.
const FILL: u8 = 238;

// A word of such bytes.
pub const FILLED: u64 = 17216961135462248174;

// Shows words as bytes, the last one as far as there is room: what is behind them isn't laid.
pub fn show(words: &[u64], out: &mut [u8]) {
    out.fill(FILL);
    for (place, byte) in out
        .iter_mut()
        .zip(words.iter().flat_map(|word| word.to_be_bytes()))
    {
        *place = byte;
    }
}
