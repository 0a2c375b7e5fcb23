// A datagram taken by the receiver that keeps early messages and the places of all messages that it delivers, in one
// call, for hosts in other languages. `include/eiderwagon.h` says what the function takes and answers.
// Made by tools/library.py from the crate exports_early_deliver, whose functions it calls.
#![tactic(auto)]

ghost use Rattle.std.specs.Prelude.{[], ◌∷◌};
ghost use Rattle.host_answers.specs.Answers.{RefusesOnly};
ghost use Rattle.exports_early_deliver.specs.Places.{PlacesAreMessages, EnoughPlaces, StillThere};
ghost use Rattle.exports_early_deliver.specs.Calls.{DeliversLent};
ghost use Rattle.exports_early_deliver.specs.Run.{HandsOn};

// Takes a datagram, and lays the place of each message that it delivers. With a state that is too short, or too few
// words, it is refused anyway.
#[unsafe(no_mangle)]
pub extern "C" fn eiderwagon_early_deliver(
    state: &mut [u8],
    slots: &mut [u8],
    datagram: &[u8],
    words: &mut [u64],
    places: &mut [u64],
) -> u32
    ensures delivers_lent { DeliversLent result state.old state.new slots.old slots.new
        datagram.now words.old words.new places.old places.new }
    ensures refuses { RefusesOnly result (11 ∷ 12 ∷ 13 ∷ 14 ∷ 15 ∷ 16 ∷ 17 ∷ 18 ∷ 19 ∷ 20 ∷ 41 ∷ []) }
    ensures messages { PlacesAreMessages }
    ensures enough { EnoughPlaces }
    ensures still_there { StillThere }
    ensures hands_on { HandsOn }
{
    exports_early_deliver::eiderwagon_early_deliver(state, slots, datagram, words, places)
}
