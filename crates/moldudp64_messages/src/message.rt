// One message of a datagram, asked for by its place from 0. A caller that wants several walks with a cursor.
#![tactic(auto, using(crate::proofs::Rules::placing))]

ghost use Rattle.std.specs.Prelude.{◌≡◌};
ghost use Rattle.moldudp64.specs.Downstream.{message_of};
ghost use Rattle.moldudp64_messages.specs.Cursor.{advanced_by, start_of, locate_of, PartIsMessage};

use crate::cursor::{Cursor, Located};
use wire::kinds::MessagePlace;

// The cursor at a place.
fn at(datagram: &[u8], place: MessagePlace) -> Cursor
    ensures { result ≡ advanced_by place.0 datagram.now (start_of datagram.now) }
{
    Cursor::start(datagram).skip(datagram, place)
}

// Whether the message is there, with its offset and length. In a refused datagram none is.
pub fn locate(datagram: &[u8], place: MessagePlace) -> Located
    ensures { result ≡ locate_of datagram.now place.0 }
{
    at(datagram, place).locate(datagram)
}

// The message as a part of the datagram: the data bytes of its block; empty where it isn't there.
pub fn message(datagram: &[u8], place: MessagePlace) -> &[u8]
    ensures result_value { result.now ≡ message_of datagram.now place.0 }
    ensures its_place { PartIsMessage }
{
    at(datagram, place).message(datagram)
}
