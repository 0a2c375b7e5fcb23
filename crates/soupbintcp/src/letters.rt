// The table of letters: who sends each, and the lengths that it may have.
#![tactic(auto, using(crate::proofs::Rules::table))]

ghost use Rattle.std.specs.Prelude.{◌≡◌};
ghost use Rattle.soupbintcp.specs.Letters.{row, letter_row, sent_in, allowed_in};

use crate::packet::{ACCEPTED_PAYLOAD, LOGIN_PAYLOAD, MOST_PAYLOAD, REJECTED_PAYLOAD, Sender};

// A row: who sends the letter, and the fewest and most bytes of its payload.
#[derive(Clone, Copy, Debug, PartialEq, Eq)]
pub struct Row {
    pub server: bool,
    pub client: bool,
    pub least: usize,
    pub most: usize,
}

// A row of these four.
fn line(server: bool, client: bool, least: usize, most: usize) -> Row
    ensures { result ≡ row server client least most }
{
    Row {
        server,
        client,
        least,
        most,
    }
}

// The table. A letter that nobody sends has a row of its own.
pub(crate) fn row_of(letter: u8) -> Row
    ensures { result ≡ letter_row letter }
{
    match letter {
        b'+' => line(true, true, 0, MOST_PAYLOAD),
        b'A' => line(true, false, ACCEPTED_PAYLOAD, ACCEPTED_PAYLOAD),
        b'J' => line(true, false, REJECTED_PAYLOAD, REJECTED_PAYLOAD),
        b'S' => line(true, false, 0, MOST_PAYLOAD),
        b'H' => line(true, false, 0, 0),
        b'Z' => line(true, false, 0, 0),
        b'L' => line(false, true, LOGIN_PAYLOAD, LOGIN_PAYLOAD),
        b'U' => line(false, true, 0, MOST_PAYLOAD),
        b'R' => line(false, true, 0, 0),
        b'O' => line(false, true, 0, 0),
        _ => line(false, false, 0, 0),
    }
}

// Whether a sender sends the letter of a row.
pub(crate) fn is_sent(found: Row, sender: Sender) -> bool
    ensures { result ≡ sent_in sender found }
{
    match sender {
        Sender::Server => found.server,
        Sender::Client => found.client,
    }
}

// Whether the letter of a row may have a payload of so many bytes.
pub(crate) fn is_allowed(found: Row, payload: usize) -> bool
    ensures { result ≡ allowed_in found payload }
{
    found.least <= payload && payload <= found.most
}
