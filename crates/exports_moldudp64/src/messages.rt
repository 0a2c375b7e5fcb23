// The messages of a datagram: one by its place, or all in one walk with a cursor that the host keeps.
#![tactic(auto, using(crate::proofs::Rules::messages))]

ghost use Rattle.std.specs.Prelude.{◌≡◌, [], ◌∷◌};
ghost use Rattle.moldudp64_messages.specs.Cursor.{locate_of, start_of};
ghost use Rattle.host_answers.specs.Answers.{RefusesOnly, AnswersWith};
ghost use Rattle.host_cursor.specs.Calls.{located_words, SetsCursor, NextMessage};

use host_answers::SHORT;
use moldudp64_messages::cursor::{Cursor, Located};
use moldudp64_messages::message;
use wire::kinds::MessagePlace;

// The words of a message: whether it is there, its offset and its length.
const MESSAGE_WORDS: usize = 3;

fn located_words(found: Located) -> [u64; MESSAGE_WORDS]
    ensures { result ≡ located_words found }
{
    [
        host_answers::flag(found.exists),
        found.offset.0 as u64,
        found.length as u64,
    ]
}

// Finds one message by its place.
#[unsafe(no_mangle)]
pub extern "C" fn eiderwagon_mold_locate(datagram: &[u8], place: u16, words: &mut [u64]) -> u32
    ensures answers_with { AnswersWith result words.old words.new 0
        (located_words (locate_of datagram.now place)) }
    ensures refuses { RefusesOnly result (41 ∷ []) }
{
    let found = message::locate(datagram, MessagePlace(place));
    host_answers::answer(words, Ok(located_words(found)))
}

// Sets a cursor to the first message.
#[unsafe(no_mangle)]
pub extern "C" fn eiderwagon_mold_walk(datagram: &[u8], cursor: &mut [u8]) -> u32
    ensures sets_cursor { SetsCursor result cursor.old cursor.new (start_of datagram.now) }
    ensures refuses { RefusesOnly result (41 ∷ []) }
{
    host_cursor::write(cursor, 0, Cursor::start(datagram))
}

// Answers the message at a cursor, and moves the cursor to the next one.
#[unsafe(no_mangle)]
pub extern "C" fn eiderwagon_mold_next(cursor: &mut [u8], datagram: &[u8], words: &mut [u64]) -> u32
    ensures next_message { NextMessage result cursor.old cursor.new datagram.now
        words.old words.new }
    ensures refuses { RefusesOnly result (41 ∷ []) }
{
    if cursor.len() < host_cursor::SIZE {
        return SHORT;
    }
    let at = host_cursor::read(cursor);
    let found = at.locate(datagram);
    let then = at.next(datagram);
    let code = host_answers::answer(words, Ok(located_words(found)));
    if found.exists {
        return host_cursor::write(cursor, code, then);
    }
    code
}
