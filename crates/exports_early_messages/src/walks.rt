// All that a datagram will deliver, in one walk, before it is taken.
#![tactic(auto, using(crate::proofs::Rules::steps, crate::proofs::Rules::walks))]

ghost use Rattle.std.specs.Prelude.{[], ◌∷◌, ◌≡◌, ◌≤◌, length};
ghost use Rattle.early_messages.specs.Walk.{walk_part};
ghost use Rattle.host_answers.specs.Answers.{RefusesOnly};
ghost use Rattle.host_early.specs.Early.{early_size, lent_in};
ghost use Rattle.exports_early_messages.specs.Calls.{SetsWalk, NextPart};

use crate::{answer_sized, slots_code};
use early_messages::message::Part;
use early_messages::walk;
use early_messages::walk::Walk;
use host_early::{LENGTHS_AT, answers};

// Sets a walk to the first message that a datagram will deliver.
#[unsafe(no_mangle)]
pub extern "C" fn eiderwagon_early_walk(
    state: &[u8],
    slots: &[u8],
    datagram: &[u8],
    cursor: &mut [u8],
) -> u32
    ensures sets_walk { SetsWalk result state.now slots.now datagram.now
        cursor.old cursor.new }
    ensures refuses { RefusesOnly result (19 ∷ 41 ∷ []) }
{
    if state.len() < host_early::SIZE {
        return host_answers::SHORT;
    }
    let from = LENGTHS_AT.0;
    let to = host_early::SIZE;
    let start = walk::start(host_early::read(state), &state[from..to], slots, datagram);
    host_early::walk::write(cursor, slots_code(slots), start)
}

// Where the message at a walk lies, with a state that is long enough.
fn part_here(here: Walk, state: &[u8], slots: &[u8], datagram: &[u8]) -> Part
    requires { early_size ≤ length state.now }
    ensures { result ≡ walk_part (lent_in state.now slots.now) datagram.now here }
{
    let from = LENGTHS_AT.0;
    let to = host_early::SIZE;
    walk::locate(
        here,
        host_early::read(state),
        &state[from..to],
        slots,
        datagram,
    )
}

// Answers the message at a walk, and moves the walk to the next one.
#[unsafe(no_mangle)]
pub extern "C" fn eiderwagon_early_next(
    cursor: &mut [u8],
    state: &[u8],
    slots: &[u8],
    datagram: &[u8],
    words: &mut [u64],
) -> u32
    ensures next_part { NextPart result cursor.old cursor.new state.now slots.now
        datagram.now words.old words.new }
    ensures refuses { RefusesOnly result (19 ∷ 41 ∷ []) }
{
    if cursor.len() < host_early::walk::SIZE {
        return host_answers::SHORT;
    }
    if state.len() < host_early::SIZE {
        return host_answers::SHORT;
    }
    let here = host_early::walk::read(cursor);
    let part = part_here(here, state, slots, datagram);
    let code = answer_sized(words, slots, answers::part_words(part));
    if part.exists {
        return host_early::walk::write(cursor, code, walk::next(here, datagram));
    }
    code
}
