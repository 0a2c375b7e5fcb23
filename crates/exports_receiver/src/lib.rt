// The receiver for hosts in other languages: started, given datagrams, and what it delivers of them.
// `include/eiderwagon.h` says what each function takes and answers.
#![tactic(auto, using(crate::proofs::Rules::cursors, crate::proofs::Rules::receivers))]

ghost use Rattle.std.specs.Prelude.{◌≡◌, [], ◌∷◌, ◌≤◌, length, Ok};
ghost use Rattle.moldudp64.specs.Downstream.{downstream_of, downstream_words};
ghost use Rattle.receiver.specs.Delivery.{delivery_cursor};
ghost use Rattle.host_answers.specs.Answers.{RefusesOnly};
ghost use Rattle.host_cursor.specs.Calls.{SetsCursor};
ghost use Rattle.host_receiver.specs.Receiver.{receiver_size};
ghost use Rattle.host_receiver.specs.Replies.{AnswerNumbersApart};
ghost use Rattle.exports_receiver.specs.Calls.{StartsReceiver, TakesDatagram};
ghost use Rattle.exports_receiver.specs.Run.{HandsOn, HostGetsTrue};
ghost use Rattle.exports_receiver.specs.Example.{HandedExample};

use host_receiver::answers;
use moldudp64::downstream;
use moldudp64::downstream::Downstream;
use receiver::delivery;
use receiver::receiver::Receiver;
use wire::kinds::{MessageCount, MessagePlace, SESSION_SIZE, SequenceNumber};
use wire::{parts, refusal};

// Starts a receiver.
#[unsafe(no_mangle)]
pub extern "C" fn eiderwagon_receiver_start(
    session: &[u8],
    next: u64,
    limit: u16,
    state: &mut [u8],
) -> u32
    ensures starts_receiver { StartsReceiver result session.now next limit state.old state.new }
    ensures refuses { RefusesOnly result (19 ∷ 41 ∷ []) }
    ensures hands_on { HandsOn }
    ensures condition_3 { HostGetsTrue }
    ensures not_vacuous { HandedExample }
{
    let started = Receiver::new(
        parts::first(session),
        SequenceNumber(next),
        MessageCount(limit),
    );
    let refused = host_answers::unless_sized(
        session.len(),
        SESSION_SIZE,
        refusal::BAD_SETTING,
        started.refusal,
    );
    host_receiver::write(state, u32::from(refused.number), started.receiver)
}

// Takes a datagram that was read, with a state that is long enough.
fn take_read(state: &mut [u8], packet: Downstream, datagram: &[u8], words: &mut [u64]) -> u32
    requires { (downstream_words (Ok packet) ≡ downstream_of datagram.now) × (receiver_size ≤ length state.old) }
    ensures takes_datagram { TakesDatagram result state.old state.new datagram.now
        words.old words.new }
    ensures refuses { RefusesOnly result (11 ∷ 12 ∷ 13 ∷ 14 ∷ 15 ∷ 16 ∷ 17 ∷ 18 ∷ 20 ∷ 41 ∷ []) }
{
    let taken = host_receiver::read(state).take_read(Ok(packet), datagram);
    let code = host_answers::answer(words, answers::answer_words(taken.answer));
    host_receiver::write(state, code, taken.receiver)
}

// Takes a datagram. It is read before the state is: 11 to 16 need none, and a state that is long enough is read once.
#[unsafe(no_mangle)]
pub extern "C" fn eiderwagon_receiver_take(
    state: &mut [u8],
    datagram: &[u8],
    words: &mut [u64],
) -> u32
    ensures takes_datagram { TakesDatagram result state.old state.new datagram.now
        words.old words.new }
    ensures refuses { RefusesOnly result (11 ∷ 12 ∷ 13 ∷ 14 ∷ 15 ∷ 16 ∷ 17 ∷ 18 ∷ 20 ∷ 41 ∷ []) }
    ensures tells_apart { AnswerNumbersApart }
{
    let packet = match downstream::read(datagram) {
        Ok(packet) => packet,
        Err(r) => return u32::from(r.number),
    };
    if state.len() < host_receiver::SIZE {
        return host_answers::SHORT;
    }
    take_read(state, packet, datagram, words)
}

// Sets a cursor to the first message that a deliver answer delivers.
#[unsafe(no_mangle)]
pub extern "C" fn eiderwagon_receiver_walk(
    datagram: &[u8],
    count: u16,
    skipped: u16,
    cursor: &mut [u8],
) -> u32
    ensures sets_cursor { SetsCursor result cursor.old cursor.new
        (delivery_cursor datagram.now count skipped) }
    ensures refuses { RefusesOnly result (41 ∷ []) }
{
    let first = delivery::start(datagram, MessageCount(count), MessagePlace(skipped));
    host_cursor::write(cursor, 0, first)
}
