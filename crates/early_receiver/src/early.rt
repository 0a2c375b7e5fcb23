// The receiver's taking of a datagram.
#![tactic(auto, using(crate::proofs::Rules::accepts, crate::proofs::Rules::aheads, crate::proofs::Rules::delivers, crate::proofs::Rules::keeping, crate::proofs::Rules::kinds_here, crate::proofs::Rules::refusals, crate::proofs::Rules::requests, crate::proofs::Rules::rows_here, crate::proofs::Rules::settles))]

ghost use Rattle.std.specs.Prelude.{◌≡◌, ℕ, Some, true, false, ◌&&◌, [], ◌∷◌, ◌+◌, ◌-◌, ◌<◌, ◌≤◌, min, ltb, eqb};
ghost use Rattle.wire.specs.Words.{refused_by};
ghost use Rattle.wire.specs.Bounds.{largest_number, largest_count};
ghost use Rattle.moldudp64.specs.Downstream.{downstream_words};
ghost use Rattle.receiver.specs.Table.{numbered, answer_words};
ghost use Rattle.receiver.specs.Receiver.{named_by, number_read, refusal_read, row_read, after_row};
ghost use Rattle.early_holding.specs.Holding.{slot_count, slot_bytes, length_bytes, lent, early, take_all};
ghost use Rattle.early_receiver.specs.declared.early.Answer.TheVariants.{Ahead, Ended};
ghost use Rattle.early_receiver.specs.Answers.{request_words};
ghost use Rattle.early_receiver.specs.Early.{with_slots, wanted, TakesEarly};
ghost use Rattle.early_receiver.specs.Read.{messages_read, early_refusal_read, TakesEarlyRead, EarlyReadAsWhole};
ghost use Rattle.early_receiver.specs.Settled.{data_or_beat, is_here, unsettled_of, settled_of, Settles, RowHere, SettlesRow};
ghost use Rattle.early_receiver.specs.Statements.{EarlyPromises};
ghost use Rattle.early_receiver.specs.Steps.{Stays, moved_past, Delivers, TakesAhead, Accepts};

use early_holding::holding;
use early_holding::holding::{EarlyReceiver, LENGTH_BYTES, SLOT_BYTES, SLOTS};
use early_word::Held;
use moldudp64::downstream;
use moldudp64::downstream::Downstream;
use moldudp64_messages::cursor::Cursor;
use receiver::receiver as plain;
use receiver::receiver::Receiver;
use wire::kinds::{MessageCount, MessagePlace, SequenceNumber};
use wire::refusal;
use wire::refusal::Refusal;

// What the receiver answers to a datagram, by the table.
#[derive(Clone, Copy)]
pub enum Answer {
    // Messages to deliver: the number of the first, how many, held ones too, and how many of the datagram's are skipped
    // before it.
    Deliver {
        first: SequenceNumber,
        count: MessageCount,
        skipped: MessagePlace,
    },
    Old,
    Quiet,
    // The datagram's number lies above the expected one.
    Ahead,
    Ended,
    Refused(Refusal),
}

// A request to send, beside the answer: the first number wanted, and how many.
#[derive(Clone, Copy)]
pub struct Ask {
    pub from: SequenceNumber,
    pub count: MessageCount,
}

// The answer to a datagram, the request that it draws if any, and the receiver to use next.
#[derive(Clone, Copy)]
pub struct Taken {
    pub answer: Answer,
    pub request: Option<Ask>,
    pub receiver: EarlyReceiver,
}

// Takes a datagram: the reader walks over its blocks, and a datagram ahead of the expected number is walked over again.
// What can be told without the slots goes the short way.
#[tactic(auto, using(crate::proofs::Rules::wholes))]
pub fn take(receiver: EarlyReceiver, lengths: &mut [u8], slots: &mut [u8], datagram: &[u8]) -> Taken
    ensures takes_early { TakesEarly result lengths.new slots.new
        (lent receiver lengths.old slots.old) datagram.now }
    ensures promises { EarlyPromises }
{
    let packet = downstream::read(datagram);
    if is_right_size(lengths.len(), slots.len()) {
        let settled = settle(receiver, packet, datagram);
        if settled.applies {
            return settled.taken;
        }
    }
    take_read(receiver, packet, lengths, slots, datagram)
}

// The same by what was read, so that a caller can look at that before it has a receiver.
#[tactic(auto, using(crate::proofs::Rules::takes))]
pub fn take_read(
    receiver: EarlyReceiver,
    packet: Result<Downstream, Refusal>,
    lengths: &mut [u8],
    slots: &mut [u8],
    datagram: &[u8],
) -> Taken
    ensures takes_early_read { TakesEarlyRead result lengths.new slots.new
        (lent receiver lengths.old slots.old) datagram.now (downstream_words packet) }
    ensures as_whole { EarlyReadAsWhole }
{
    let base = receiver.base;
    let taken = base.take_read(packet, datagram);
    let answer = taken.answer;
    let right = is_right_size(lengths.len(), slots.len());
    if let Err(refused) = with_slots(right, check_answer(answer)) {
        return Taken {
            answer: Answer::Refused(refused),
            request: None,
            receiver,
        };
    }
    accept(receiver, taken, packet, lengths, slots, datagram)
}

// What a datagram comes to where that can be told without what is lent: whether it can, and then all of it. Where it
// can't, the receiver as it was.
#[derive(Clone, Copy)]
pub struct Settled {
    pub applies: bool,
    pub taken: Taken,
}

// Takes data or a heartbeat that isn't ahead, of the receiver's name: nothing is kept then, so nothing is lent. It is
// the short way of nearly every datagram.
pub fn settle(
    receiver: EarlyReceiver,
    packet: Result<Downstream, Refusal>,
    datagram: &[u8],
) -> Settled
    ensures { Settles result receiver datagram.now (downstream_words packet) }
{
    let base = receiver.base;
    if !is_here(base, packet, datagram) {
        return unsettled(receiver);
    }
    settle_row(receiver, row_here(base, packet), packet, datagram)
}

// Whether it is data or a heartbeat for which the receiver is open.
fn is_here(base: Receiver, packet: Result<Downstream, Refusal>, datagram: &[u8]) -> bool
    ensures { result ≡ is_here base datagram.now (downstream_words packet) }
{
    if base.is_open_for(datagram) {
        return is_data_or_beat(packet);
    }
    false
}

fn unsettled(receiver: EarlyReceiver) -> Settled
    ensures { result ≡ unsettled_of receiver }
{
    Settled {
        applies: false,
        taken: Taken {
            answer: Answer::Old,
            request: None,
            receiver,
        },
    }
}

fn applied(taken: Taken) -> Settled
    ensures { result ≡ settled_of taken }
{
    Settled {
        applies: true,
        taken,
    }
}

fn is_data_or_beat(packet: Result<Downstream, Refusal>) -> bool
    ensures { result ≡ data_or_beat (downstream_words packet).which }
{
    match packet {
        Ok(Downstream::Data { .. }) => true,
        Ok(Downstream::Heartbeat { .. }) => true,
        Ok(Downstream::EndOfSession { .. }) => false,
        Err(_) => false,
    }
}

// The plain receiver's row for data or a heartbeat; for anything else, any.
fn row_here(base: Receiver, packet: Result<Downstream, Refusal>) -> plain::Taken
    ensures { RowHere result base (downstream_words packet) }
{
    match packet {
        Ok(Downstream::Data { first, count }) => base.take_data(first, count),
        Ok(Downstream::Heartbeat { next }) => base.take_heartbeat(next),
        Ok(Downstream::EndOfSession { next }) => base.take_heartbeat(next),
        Err(_) => base.take_heartbeat(base.next),
    }
}

// A row that delivers, or is old or quiet, with what is held; every other isn't settled.
fn settle_row(
    receiver: EarlyReceiver,
    taken: plain::Taken,
    packet: Result<Downstream, Refusal>,
    datagram: &[u8],
) -> Settled
    requires packet_value { refusal_read receiver.base datagram.now (downstream_words packet) ≡ 0 }
    requires answer_value { answer_words taken.answer ≡ (row_read receiver.base (downstream_words packet)).reply }
    requires receiver_value { taken.receiver ≡ after_row (named_by receiver.base datagram.now)
        (row_read receiver.base (downstream_words packet)) }
    ensures { SettlesRow result receiver datagram.now (downstream_words packet) }
{
    let held = receiver.held;
    let base = taken.receiver;
    let moved = EarlyReceiver { base, held };
    let answer = taken.answer;
    match answer {
        plain::Answer::Deliver {
            first,
            count,
            skipped,
        } => applied(deliver(moved, first, count, skipped)),
        plain::Answer::Old => applied(stay(moved, Answer::Old)),
        plain::Answer::Quiet => applied(stay(moved, Answer::Quiet)),
        plain::Answer::Ask { from: _, count: _ } => unsettled(receiver),
        plain::Answer::Ended => unsettled(receiver),
        plain::Answer::Refused(_) => unsettled(receiver),
    }
}

// What a datagram that was read is refused for, before anything is taken.
pub fn check(
    receiver: EarlyReceiver,
    packet: Result<Downstream, Refusal>,
    lengths: &[u8],
    slots: &[u8],
    datagram: &[u8],
) -> Result<(), Refusal>
    ensures { result ≡ refused_by (early_refusal_read (lent receiver lengths.now slots.now)
        datagram.now (downstream_words packet)) }
{
    with_slots(
        is_right_size(lengths.len(), slots.len()),
        receiver.base.check(packet, datagram),
    )
}

// Whether slots and lengths are of their size.
fn is_right_size(lengths: usize, slots: usize) -> bool
    ensures { result ≡ eqb slots slot_bytes && eqb lengths length_bytes }
{
    (slots == SLOT_BYTES) & (lengths == LENGTH_BYTES)
}

// What was found, with 19 put in before 20 where the slots are of another size.
fn with_slots(right: bool, found: Result<(), Refusal>) -> Result<(), Refusal>
    ensures { (k : ℕ) → found ≡ refused_by k → result ≡ refused_by (with_slots right k) }
{
    if right {
        return found;
    }
    match found {
        Err(refused) => {
            if refusal::BAD_SETTING.number < refused.number {
                return Err(refusal::BAD_SETTING);
            }
            found
        }
        Ok(()) => Err(refusal::BAD_SETTING),
    }
}

// What the plain receiver refused. One of number 0, which was made up, refuses nothing.
fn check_answer(answer: plain::Answer) -> Result<(), Refusal>
    ensures { result ≡ refused_by (answer_words answer).refusal }
{
    match answer {
        plain::Answer::Deliver { .. } => Ok(()),
        plain::Answer::Old => Ok(()),
        plain::Answer::Quiet => Ok(()),
        plain::Answer::Ask { .. } => Ok(()),
        plain::Answer::Ended => Ok(()),
        plain::Answer::Refused(refused) => {
            if refused.number == 0 {
                return Ok(());
            }
            Err(refused)
        }
    }
}

// A datagram that isn't refused, which the plain receiver took so.
fn accept(
    receiver: EarlyReceiver,
    taken: plain::Taken,
    packet: Result<Downstream, Refusal>,
    lengths: &mut [u8],
    slots: &mut [u8],
    datagram: &[u8],
) -> Taken
    requires packet_value { refusal_read receiver.base datagram.now (downstream_words packet) ≡ 0 }
    requires answer_value { answer_words taken.answer ≡ (row_read receiver.base (downstream_words packet)).reply }
    requires receiver_value { taken.receiver ≡ after_row (named_by receiver.base datagram.now)
        (row_read receiver.base (downstream_words packet)) }
    ensures { Accepts result lengths.new slots.new
        (lent receiver lengths.old slots.old) datagram.now (downstream_words packet) }
{
    let held = receiver.held;
    let base = taken.receiver;
    let moved = EarlyReceiver { base, held };
    let answer = taken.answer;
    match answer {
        plain::Answer::Deliver {
            first,
            count,
            skipped,
        } => deliver(moved, first, count, skipped),
        plain::Answer::Old => stay(moved, Answer::Old),
        plain::Answer::Quiet => stay(moved, Answer::Quiet),
        plain::Answer::Ask { from: _, count: _ } => {
            ahead(moved, packet, lengths, slots, datagram)
        }
        plain::Answer::Ended => end(moved),
        plain::Answer::Refused(r) => stay(moved, Answer::Refused(r)),
    }
}

// Messages to deliver, from the expected number on; those that are held and follow without a gap are delivered with
// them. With nothing held the plain receiver's answer stands, and nothing is asked for.
fn deliver(
    receiver: EarlyReceiver,
    first: SequenceNumber,
    count: MessageCount,
    skipped: MessagePlace,
) -> Taken
    requires next_value { receiver.base.next.0 ≡ first.0 + count.0 }
    requires ended_value { receiver.base.ended ≡ false }
    ensures { Delivers result receiver first.0 count.0 skipped.0 }
{
    let held = receiver.held;
    if held.is_nothing() {
        return Taken {
            answer: Answer::Deliver {
                first,
                count,
                skipped,
            },
            request: None,
            receiver,
        };
    }
    let moved = moved_past(receiver, first, count);
    let base = moved.base;
    let after = base.next;
    Taken {
        answer: Answer::Deliver {
            first,
            count: first.gap(after),
            skipped,
        },
        request: for_held(moved),
        receiver: moved,
    }
}

// The receiver moved past so many messages from a number on, and past the held ones that follow.
fn moved_past(receiver: EarlyReceiver, first: SequenceNumber, count: MessageCount) -> EarlyReceiver
    requires { receiver.base.next.0 ≡ first.0 + count.0 }
    ensures value { result ≡ moved_past receiver first.0 count.0 }
    ensures fits { first.0 + count.0 ≤ largest_number }
{
    let moved = holding::move_to(first, receiver.held, first.plus(count));
    let base = receiver.base;
    let session = base.session;
    let next = moved.next;
    let limit = base.limit;
    let held = moved.held;
    EarlyReceiver {
        base: Receiver {
            session,
            next,
            limit,
            ended: base.ended,
        },
        held,
    }
}

// The expected number stays, and what is held too.
fn stay(receiver: EarlyReceiver, answer: Answer) -> Taken
    requires { receiver.base.ended ≡ false }
    ensures { Stays result receiver answer 0 }
{
    Taken {
        answer,
        request: for_held(receiver),
        receiver,
    }
}

// The session ends: nothing is held any more.
fn end(receiver: EarlyReceiver) -> Taken
    requires { receiver.base.ended ≡ true }
    ensures { Stays result (early receiver.base 0) Ended 0 }
{
    let base = receiver.base;
    Taken {
        answer: Answer::Ended,
        request: None,
        receiver: EarlyReceiver {
            base,
            held: Held::NOTHING,
        },
    }
}

// A datagram ahead: the messages of data are kept, and the gap before what is held, or before the datagram, is asked
// for.
fn ahead(
    receiver: EarlyReceiver,
    packet: Result<Downstream, Refusal>,
    lengths: &mut [u8],
    slots: &mut [u8],
    datagram: &[u8],
) -> Taken
    requires ended_value { receiver.base.ended ≡ false }
    requires next_bound { receiver.base.next.0 < number_read (downstream_words packet) }
    ensures { TakesAhead result lengths.new slots.new
        (lent receiver lengths.old slots.old) datagram.now (downstream_words packet) }
{
    match packet {
        Ok(Downstream::Data { first, count }) => {
            let kept = keep_all(first, count, receiver, lengths, slots, datagram);
            ahead_of(kept, first)
        }
        Ok(Downstream::Heartbeat { next }) => ahead_of(receiver, next),
        Ok(Downstream::EndOfSession { next }) => ahead_of(receiver, next),
        Err(_) => stay(receiver, Answer::Ahead),
    }
}

// The answer to a datagram with a number above the expected one.
fn ahead_of(receiver: EarlyReceiver, number: SequenceNumber) -> Taken
    requires ended_value { receiver.base.ended ≡ false }
    requires next_lt_number { receiver.base.next.0 < number.0 }
    ensures { Stays result receiver Ahead number.0 }
{
    let held = receiver.held;
    if held.is_nothing() {
        let base = receiver.base;
        let next = base.next;
        return Taken {
            answer: Answer::Ahead,
            request: Some(request_for(receiver, next.gap(number))),
            receiver,
        };
    }
    stay(receiver, Answer::Ahead)
}

// A request for the numbers below the lowest held one; nothing where none is held.
fn for_held(receiver: EarlyReceiver) -> Option<Ask>
    requires { receiver.base.ended ≡ false }
    ensures { request_words result ≡ wanted receiver 0 }
{
    let held = receiver.held;
    if held.is_nothing() {
        return None;
    }
    Some(request_for(receiver, MessageCount(held.lowest().0 + 1)))
}

// A request from the expected number on, for the smaller of the gap and the limit.
fn request_for(receiver: EarlyReceiver, gap: MessageCount) -> Ask
    ensures { request_words (Some result) ≡ receiver.base.next.0 ∷ min gap.0 receiver.base.limit.0 ∷ [] }
{
    Ask {
        from: receiver.base.next,
        count: gap.min(receiver.base.limit),
    }
}

// The messages of data ahead, one at a time in rising number; none where even the first lies too far.
fn keep_all(
    first: SequenceNumber,
    count: MessageCount,
    receiver: EarlyReceiver,
    lengths: &mut [u8],
    slots: &mut [u8],
    datagram: &[u8],
) -> EarlyReceiver
    requires { receiver.base.next.0 < first.0 }
    ensures { lent result lengths.new slots.new
        ≡ take_all (lent receiver lengths.old slots.old) first.0
        (messages_read datagram.now (numbered first.0 count.0)) }
{
    if is_far(receiver, first) {
        return receiver;
    }
    keep_to(first, first.plus(count), receiver, lengths, slots, datagram)
}

// Whether a number lies too far above the expected one to be kept.
fn is_far(receiver: EarlyReceiver, number: SequenceNumber) -> bool
    ensures { result ≡ ltb slot_count (number.0 - receiver.base.next.0) }
{
    let base = receiver.base;
    let next = base.next;
    SLOTS < next.gap(number)
}

// A datagram's messages, the first with this number, and the last just below end.
fn keep_to(
    first: SequenceNumber,
    end: SequenceNumber,
    receiver: EarlyReceiver,
    lengths: &mut [u8],
    slots: &mut [u8],
    datagram: &[u8],
) -> EarlyReceiver
    requires next_lt_first { receiver.base.next.0 < first.0 }
    requires first_bound { end.0 - first.0 ≤ largest_count }
    ensures { lent result lengths.new slots.new
        ≡ take_all (lent receiver lengths.old slots.old) first.0
        (messages_read datagram.now (end.0 - first.0)) }
{
    let base = receiver.base;
    let mut held = receiver.held;
    let mut number = first;
    let mut cursor = Cursor::first(first.gap(end));
    while number < end {
        let message = cursor.message(datagram);
        // before anything is kept, so that the block's length is read once
        cursor = cursor.next(datagram);
        held = EarlyReceiver { base, held }.keep(lengths, slots, number, message);
        number = number.plus(MessageCount(1));
    }
    EarlyReceiver { base, held }
}
