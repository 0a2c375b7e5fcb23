// The receiver that keeps early messages for hosts in other languages: started, and given datagrams.
// `include/eiderwagon.h` says what each function takes and answers.
// Made by tools/library.py from the crate exports_early, whose functions it calls.
#![tactic(auto)]

ghost use Rattle.std.specs.Prelude.{[], ◌∷◌};
ghost use Rattle.host_answers.specs.Answers.{RefusesOnly};
ghost use Rattle.exports_early.specs.Calls.{StartsKeeper, TakesLent};
ghost use Rattle.exports_early.specs.Run.{HandsOn, HostGetsTrue};

// Starts a receiver.
#[unsafe(no_mangle)]
pub extern "C" fn eiderwagon_early_start(
    session: &[u8],
    next: u64,
    limit: u16,
    state: &mut [u8],
) -> u32
    ensures starts_keeper { StartsKeeper result session.now next limit state.old state.new }
    ensures refuses { RefusesOnly result (19 ∷ 41 ∷ []) }
    ensures hands_on { HandsOn }
    ensures condition_3 { HostGetsTrue }
{
    exports_early::eiderwagon_early_start(session, next, limit, state)
}

// Takes a datagram. It is read before the state is: 11 to 16 need none.
#[unsafe(no_mangle)]
pub extern "C" fn eiderwagon_early_take(
    state: &mut [u8],
    slots: &mut [u8],
    datagram: &[u8],
    words: &mut [u64],
) -> u32
    ensures takes_lent { TakesLent result state.old state.new slots.old slots.new
        datagram.now words.old words.new }
    ensures refuses { RefusesOnly result (11 ∷ 12 ∷ 13 ∷ 14 ∷ 15 ∷ 16 ∷ 17 ∷ 18 ∷ 19 ∷ 20 ∷ 41 ∷ []) }
{
    exports_early::eiderwagon_early_take(state, slots, datagram, words)
}
