// How many messages a datagram will deliver, and one of them by its place.
#![tactic(auto, using(crate::proofs::Rules::counts, crate::proofs::Rules::locates, crate::proofs::Rules::messages, crate::proofs::Rules::slots))]

ghost use Rattle.std.specs.Prelude.{◌≡◌, ◌-◌, min, length, take, drop};
ghost use Rattle.wire.specs.Bounds.{largest_count};
ghost use Rattle.early_holding.specs.Holding.{slot_at, length_of, lent};
ghost use Rattle.early_messages.specs.Delivery.{in_slots, in_datagram, no_part, delivered_count, part_at};
ghost use Rattle.early_messages.specs.Delivery.{message_at, PartsAreMessages, PlacesExist, PlacesAreDelivered};

use early_holding::holding;
use early_holding::holding::{EarlyReceiver, LENGTH_BYTES, SLOT_BYTES, SLOT_SIZE};
use moldudp64::header;
use moldudp64_messages::cursor::Located;
use moldudp64_messages::message;
use receiver::receiver as plain;
use wire::kinds::{ByteOffset, COUNT_SIZE, MessageCount, MessagePlace, SequenceNumber};
use wire::number;

// Whether the message is there, whether it lies in the slots, and its offset and length there or in the datagram.
#[derive(Clone, Copy)]
pub struct Part {
    pub exists: bool,
    pub held: bool,
    pub offset: ByteOffset,
    pub length: usize,
}

pub(crate) fn no_part() -> Part
    ensures { result ≡ no_part }
{
    Part {
        exists: false,
        held: false,
        offset: ByteOffset(0),
        length: 0,
    }
}

// A message of the datagram.
pub(crate) fn in_datagram(found: Located) -> Part
    ensures { result ≡ in_datagram found }
{
    let offset = found.offset;
    Part {
        exists: found.exists,
        held: false,
        offset,
        length: found.length,
    }
}

// How many messages a datagram will deliver; none where it is refused, for slots of another size too.
pub fn count(receiver: EarlyReceiver, lengths: &[u8], slots: &[u8], datagram: &[u8]) -> MessageCount
    ensures { result.0 ≡ min largest_count
        (delivered_count (lent receiver lengths.now slots.now) datagram.now) }
{
    if slots.len() != SLOT_BYTES || lengths.len() != LENGTH_BYTES {
        return MessageCount(0);
    }
    match receiver.base.take(datagram).answer {
        plain::Answer::Deliver { first, count, .. } => {
            first.gap(holding::move_to(first, receiver.held, first.plus(count)).next)
        }
        plain::Answer::Old => MessageCount(0),
        plain::Answer::Quiet => MessageCount(0),
        plain::Answer::Ask { .. } => MessageCount(0),
        plain::Answer::Ended => MessageCount(0),
        plain::Answer::Refused(_) => MessageCount(0),
    }
}

// How many bytes a slice has from a place on.
fn left_from(s: &[u8], at: ByteOffset) -> usize
    ensures { result ≡ length s.now - at.0 }
{
    s.len().saturating_sub(at.0)
}

// Where the message of a number lies in the slots; a length that was made up ends with them.
pub(crate) fn slot_part(lengths: &[u8], slots: &[u8], number: SequenceNumber) -> Part
    ensures { result ≡ in_slots (slot_at number.0)
        (length (take (length_of lengths.now number.0)
        (drop (slot_at number.0) slots.now))) }
{
    let slot = holding::slot_of(number);
    let at = ByteOffset(slot * SLOT_SIZE);
    let noted = number::be16(lengths, ByteOffset(slot * COUNT_SIZE)) as usize;
    Part {
        exists: true,
        held: true,
        offset: at,
        length: left_from(slots, at).min(noted),
    }
}

// Where the message at a place lies.
pub fn locate(
    receiver: EarlyReceiver,
    lengths: &[u8],
    slots: &[u8],
    datagram: &[u8],
    place: MessagePlace,
) -> Part
    ensures value { result ≡ part_at (lent receiver lengths.now slots.now) datagram.now
        place.0 }
    ensures messages { PartsAreMessages }
    ensures exists { PlacesExist }
{
    let there = count(receiver, lengths, slots, datagram);
    let before = place.before();
    if before >= there {
        return no_part();
    }
    let base = receiver.base;
    let next = base.next;
    let number = next.plus(before);
    if receiver.holds(number) {
        return slot_part(lengths, slots, number);
    }
    let first = SequenceNumber(number::be64(datagram, header::NUMBER_AT));
    in_datagram(message::locate(datagram, first.place_of(number)))
}

// The message at a place: a part of the slots if it is held there, else of the datagram; empty where there is none.
pub fn message<'a>(
    receiver: EarlyReceiver,
    lengths: &[u8],
    slots: &'a [u8],
    datagram: &'a [u8],
    place: MessagePlace,
) -> &'a [u8]
    ensures result_value { result.now ≡ message_at (lent receiver lengths.now slots.now)
        datagram.now place.0 }
    ensures places { PlacesAreDelivered }
{
    let part = locate(receiver, lengths, slots, datagram, place);
    let from = part.offset.0;
    let to = from + part.length;
    if part.held {
        return &slots[from..to];
    }
    &datagram[from..to]
}
