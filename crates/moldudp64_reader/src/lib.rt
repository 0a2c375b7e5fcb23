// A reader that keeps hold of a lent datagram and of its place there, for display code. Each function takes it apart
// and calls the cursor's walk.
#![tactic(auto)]

ghost use Rattle.std.specs.Prelude.{◌≡◌};
ghost use Rattle.moldudp64_messages.specs.Cursor.{located, advanced, start_of, part};
ghost use Rattle.receiver.specs.Delivery.{delivery_cursor, DeliveryVisits};
ghost use Rattle.moldudp64_reader.specs.Reader.{shown_at, ReadsTheMessages, ReadsTheDelivery};

use moldudp64_messages::cursor::{Cursor, Located};
use receiver::delivery;
use wire::kinds::{MessageCount, MessagePlace};

#[derive(Clone, Copy, Debug, PartialEq, Eq)]
pub struct Reader<'a> {
    pub cursor: Cursor,
    pub datagram: &'a [u8],
}

// Where the message is, how many are left from it on, and the place of the next one.
#[derive(Clone, Copy, Debug, PartialEq, Eq)]
pub struct Shown {
    pub located: Located,
    pub left: MessageCount,
    pub next: Cursor,
}

// A reader at the first message of a datagram.
pub fn open<'a>(datagram: &'a [u8]) -> Reader<'a>
    ensures { (result.datagram ≡ datagram.entry)
        × (result.cursor ≡ start_of datagram.now)
        × ReadsTheMessages }
{
    let cursor = Cursor::start(datagram);
    Reader { cursor, datagram }
}

// A reader at the first message that a deliver answer doesn't skip: count and skipped are the answer's.
pub fn deliver<'a>(datagram: &'a [u8], count: MessageCount, skipped: MessagePlace) -> Reader<'a>
    ensures { (result.datagram ≡ datagram.entry)
        × (result.cursor ≡ delivery_cursor datagram.now count.0 skipped.0)
        × DeliveryVisits
        × ReadsTheDelivery }
{
    let cursor = delivery::start(datagram, count, skipped);
    Reader { cursor, datagram }
}

// Whether a message is there, with its offset and length.
pub fn locate<'a>(reader: Reader<'a>) -> Located
    ensures { result ≡ located reader.entry.datagram.now reader.entry.cursor }
{
    reader.cursor.locate(reader.datagram)
}

// The message as a part of the datagram; empty where none is there.
pub fn message<'a>(reader: Reader<'a>) -> &'a [u8]
    ensures { result.now ≡ part reader.entry.datagram.now
        (located reader.entry.datagram.now reader.entry.cursor) }
{
    reader.cursor.message(reader.datagram)
}

// How many messages are left, this one included, as the cursor has it: one that was made up may tell any number.
pub fn left<'a>(reader: Reader<'a>) -> MessageCount
    ensures { result ≡ reader.entry.cursor.left }
{
    reader.cursor.left
}

// The reader at the next message. It stays where none is there.
pub fn next<'a>(reader: Reader<'a>) -> Reader<'a>
    ensures { (result.datagram ≡ reader.entry.datagram)
        × (result.cursor ≡ advanced reader.entry.datagram.now reader.entry.cursor) }
{
    let cursor = reader.cursor.next(reader.datagram);
    let datagram = reader.datagram;
    Reader { cursor, datagram }
}

// The same with plain parameters, for a caller that holds no reader: what a reader at a cursor shows.
pub fn show(cursor: Cursor, datagram: &[u8]) -> Shown
    ensures { result ≡ shown_at datagram.now cursor }
{
    let reader = Reader { cursor, datagram };
    let located = locate(reader);
    let left = left(reader);
    let next = next(reader).cursor;
    Shown {
        located,
        left,
        next,
    }
}
