// The receiver for hosts in other languages: started, given datagrams, and what it delivers of them.
// `include/eiderwagon.h` says what each function takes and answers.
// Made by tools/library.py from the crate exports_receiver, whose functions it calls.
#![tactic(auto)]

ghost use Rattle.std.specs.Prelude.{[], ◌∷◌};
ghost use Rattle.receiver.specs.Delivery.{delivery_cursor};
ghost use Rattle.host_answers.specs.Answers.{RefusesOnly};
ghost use Rattle.host_cursor.specs.Calls.{SetsCursor};
ghost use Rattle.host_receiver.specs.Replies.{AnswerNumbersApart};
ghost use Rattle.exports_receiver.specs.Calls.{StartsReceiver, TakesDatagram};
ghost use Rattle.exports_receiver.specs.Run.{HandsOn, HostGetsTrue};
ghost use Rattle.exports_receiver.specs.Example.{HandedExample};

// Starts a receiver.
#[unsafe(no_mangle)]
pub extern "C" fn eiderwagon_receiver_start(
    session: &[u8],
    next: u64,
    limit: u16,
    state: &mut [u8],
) -> u32
    ensures starts_receiver { StartsReceiver result session.now next limit state.old state.new }
    ensures refuses { RefusesOnly result (19 ∷ 41 ∷ []) }
    ensures hands_on { HandsOn }
    ensures condition_3 { HostGetsTrue }
    ensures not_vacuous { HandedExample }
{
    exports_receiver::eiderwagon_receiver_start(session, next, limit, state)
}

// Takes a datagram. It is read before the state is: 11 to 16 need none, and a state that is long enough is read once.
#[unsafe(no_mangle)]
pub extern "C" fn eiderwagon_receiver_take(
    state: &mut [u8],
    datagram: &[u8],
    words: &mut [u64],
) -> u32
    ensures takes_datagram { TakesDatagram result state.old state.new datagram.now
        words.old words.new }
    ensures refuses { RefusesOnly result (11 ∷ 12 ∷ 13 ∷ 14 ∷ 15 ∷ 16 ∷ 17 ∷ 18 ∷ 20 ∷ 41 ∷ []) }
    ensures tells_apart { AnswerNumbersApart }
{
    exports_receiver::eiderwagon_receiver_take(state, datagram, words)
}

// Sets a cursor to the first message that a deliver answer delivers.
#[unsafe(no_mangle)]
pub extern "C" fn eiderwagon_receiver_walk(
    datagram: &[u8],
    count: u16,
    skipped: u16,
    cursor: &mut [u8],
) -> u32
    ensures sets_cursor { SetsCursor result cursor.old cursor.new
        (delivery_cursor datagram.now count skipped) }
    ensures refuses { RefusesOnly result (41 ∷ []) }
{
    exports_receiver::eiderwagon_receiver_walk(datagram, count, skipped, cursor)
}
