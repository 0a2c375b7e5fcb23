// A datagram taken by the receiver and the places of all messages that it delivers, in one call, for hosts in other
// languages. It has a crate of its own, so that the reader has one caller there and is compiled into it.
// `include/eiderwagon.h` says what the function takes and answers.
// Made by tools/library.py from the crate exports_deliver, whose functions it calls.
#![tactic(auto)]

ghost use Rattle.std.specs.Prelude.{[], ◌∷◌};
ghost use Rattle.host_answers.specs.Answers.{RefusesOnly};
ghost use Rattle.exports_deliver.specs.Places.{PlacesAreMessages, EnoughPlaces};
ghost use Rattle.exports_deliver.specs.Calls.{DeliversDatagram};
ghost use Rattle.exports_deliver.specs.Run.{HandsOn};
ghost use Rattle.exports_deliver.specs.Example.{HandedExample};

// Takes a datagram, and lays the place of each message that it delivers. It is read before the state is: 11 to 16 need
// none.
#[unsafe(no_mangle)]
pub extern "C" fn eiderwagon_receiver_deliver(
    state: &mut [u8],
    datagram: &[u8],
    words: &mut [u64],
    places: &mut [u64],
) -> u32
    ensures delivers_datagram { DeliversDatagram result state.old state.new datagram.now
        words.old words.new places.old places.new }
    ensures refuses { RefusesOnly result (11 ∷ 12 ∷ 13 ∷ 14 ∷ 15 ∷ 16 ∷ 17 ∷ 18 ∷ 20 ∷ 41 ∷ []) }
    ensures messages { PlacesAreMessages }
    ensures enough { EnoughPlaces }
    ensures hands_on { HandsOn }
    ensures not_vacuous { HandedExample }
{
    exports_deliver::eiderwagon_receiver_deliver(state, datagram, words, places)
}
