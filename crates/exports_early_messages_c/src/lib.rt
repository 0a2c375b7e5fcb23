// What a datagram will deliver, before the receiver that keeps early messages takes it: how many messages, each by its
// place, and all in one walk, for hosts in other languages. `include/eiderwagon.h` says what each function takes and
// answers.
// Made by tools/library.py from the crate exports_early_messages, whose functions it calls.
#![tactic(auto)]

ghost use Rattle.std.specs.Prelude.{[], ◌∷◌};
ghost use Rattle.host_answers.specs.Answers.{RefusesOnly};
ghost use Rattle.exports_early_messages.specs.Calls.{CountsMessages, LocatesMessage, SetsWalk, NextPart};

// How many messages a datagram will deliver.
#[unsafe(no_mangle)]
pub extern "C" fn eiderwagon_early_count(
    state: &[u8],
    slots: &[u8],
    datagram: &[u8],
    words: &mut [u64],
) -> u32
    ensures counts_messages { CountsMessages result state.now slots.now datagram.now
        words.old words.new }
    ensures refuses { RefusesOnly result (19 ∷ 41 ∷ []) }
{
    exports_early_messages::eiderwagon_early_count(state, slots, datagram, words)
}

// Where the message at a place lies.
#[unsafe(no_mangle)]
pub extern "C" fn eiderwagon_early_locate(
    state: &[u8],
    slots: &[u8],
    datagram: &[u8],
    place: u16,
    words: &mut [u64],
) -> u32
    ensures locates_message { LocatesMessage result state.now slots.now datagram.now place
        words.old words.new }
    ensures refuses { RefusesOnly result (19 ∷ 41 ∷ []) }
{
    exports_early_messages::eiderwagon_early_locate(state, slots, datagram, place, words)
}

// Sets a walk to the first message that a datagram will deliver.
#[unsafe(no_mangle)]
pub extern "C" fn eiderwagon_early_walk(
    state: &[u8],
    slots: &[u8],
    datagram: &[u8],
    cursor: &mut [u8],
) -> u32
    ensures sets_walk { SetsWalk result state.now slots.now datagram.now
        cursor.old cursor.new }
    ensures refuses { RefusesOnly result (19 ∷ 41 ∷ []) }
{
    exports_early_messages::walks::eiderwagon_early_walk(state, slots, datagram, cursor)
}

// Answers the message at a walk, and moves the walk to the next one.
#[unsafe(no_mangle)]
pub extern "C" fn eiderwagon_early_next(
    cursor: &mut [u8],
    state: &[u8],
    slots: &[u8],
    datagram: &[u8],
    words: &mut [u64],
) -> u32
    ensures next_part { NextPart result cursor.old cursor.new state.now slots.now
        datagram.now words.old words.new }
    ensures refuses { RefusesOnly result (19 ∷ 41 ∷ []) }
{
    exports_early_messages::walks::eiderwagon_early_next(cursor, state, slots, datagram, words)
}
