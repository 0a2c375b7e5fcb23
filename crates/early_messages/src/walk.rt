// All that a datagram will deliver, in one walk over the datagram.
#![tactic(auto, using(crate::proofs::Rules::walks))]

ghost use Rattle.std.specs.Prelude.{◌≡◌};
ghost use Rattle.early_holding.specs.Holding.{lent};
ghost use Rattle.early_messages.specs.Walk.{start_walk, walk_part, walk_on, WalksTheDelivery};

use crate::message;
use crate::message::Part;
use early_holding::holding::EarlyReceiver;
use moldudp64::header;
use moldudp64_messages::cursor::Cursor;
use wire::kinds::{MessageCount, SequenceNumber};
use wire::number;

// The number of the message to come, how many are left, and the place in the datagram.
#[derive(Clone, Copy)]
pub struct Walk {
    pub number: SequenceNumber,
    pub left: MessageCount,
    pub cursor: Cursor,
}

// A walk over what a datagram will deliver.
pub fn start(receiver: EarlyReceiver, lengths: &[u8], slots: &[u8], datagram: &[u8]) -> Walk
    ensures value { result ≡ start_walk (lent receiver lengths.now slots.now)
        datagram.now }
    ensures walks { WalksTheDelivery }
{
    let base = receiver.base;
    let next = base.next;
    let first = SequenceNumber(number::be64(datagram, header::NUMBER_AT));
    Walk {
        number: next,
        left: message::count(receiver, lengths, slots, datagram),
        cursor: Cursor::start(datagram).skip(datagram, first.place_of(next)),
    }
}

// Where the message to come lies.
pub fn locate(
    walk: Walk,
    receiver: EarlyReceiver,
    lengths: &[u8],
    slots: &[u8],
    datagram: &[u8],
) -> Part
    ensures { result ≡ walk_part (lent receiver lengths.now slots.now)
        datagram.now walk }
{
    let left = walk.left;
    if left.is_zero() {
        return message::no_part();
    }
    let number = walk.number;
    if receiver.holds(number) {
        return message::slot_part(lengths, slots, number);
    }
    let cursor = walk.cursor;
    message::in_datagram(cursor.locate(datagram))
}

// The walk past that message; it stays where none is left.
pub fn next(walk: Walk, datagram: &[u8]) -> Walk
    ensures { result ≡ walk_on datagram.now walk }
{
    let left = walk.left;
    if left.is_zero() {
        return walk;
    }
    let number = walk.number;
    let cursor = walk.cursor;
    Walk {
        number: number.plus(MessageCount(1)),
        left: left.less_one(),
        cursor: cursor.next(datagram),
    }
}
