// A datagram taken by the receiver that keeps early messages and the places of all messages that it delivers, in one
// call, for hosts in other languages. `include/eiderwagon.h` says what the function takes and answers.
#![tactic(auto, using(crate::proofs::Rules::delivering, crate::proofs::Rules::lacking, crate::proofs::Rules::laying))]

ghost use Rattle.std.specs.Prelude.{◌≡◌, [], ◌∷◌, ◌+◌, ◌*◌, ◌≤◌, length, ltb};
ghost use Rattle.wire.specs.Output.{put};
ghost use Rattle.early_holding.specs.Holding.{lent};
ghost use Rattle.early_messages.specs.Walk.{start_walk};
ghost use Rattle.host_answers.specs.Answers.{RefusesOnly};
ghost use Rattle.host_early.specs.Early.{early_size};
ghost use Rattle.exports_early_deliver.specs.Places.{place_words, places_delivered};
ghost use Rattle.exports_early_deliver.specs.Places.{PlacesAreMessages, EnoughPlaces, StillThere};
ghost use Rattle.exports_early_deliver.specs.Calls.{DeliversLent};
ghost use Rattle.exports_early_deliver.specs.Run.{HandsOn};

use early_holding::holding::EarlyReceiver;
use early_messages::message::Part;
use early_messages::walk;
use early_messages::walk::Walk;
use host_early::LENGTHS_AT;
use host_early::answers::ANSWER_WORDS;

// Words of a place: whether the message lies in the slots, its offset there or in the datagram, and its length.
const PLACE_WORDS: usize = 3;

// Lays a place from a word on, where there is room for it.
fn lay_place(part: Part, word: usize, places: &mut [u64])
    requires { word + 3 ≤ length places.old }
    ensures { places.new ≡ put places.old word (place_words part) }
{
    places[word] = host_answers::flag(part.held);
    places[word + 1] = part.offset.0 as u64;
    places[word + 2] = part.length as u64;
}

// Lays the places of all that a datagram will deliver, by a walk that is at the first. There is room for the places, so
// nothing is tested.
fn lay_places(
    start: Walk,
    receiver: EarlyReceiver,
    lengths: &[u8],
    slots: &[u8],
    datagram: &[u8],
    places: &mut [u64],
)
    requires { (start ≡ start_walk (lent receiver lengths.now slots.now) datagram.now)
        × (3 * start.left.0 ≤ length places.old) }
    ensures { places.new ≡ put places.old 0
        (places_delivered (lent receiver lengths.now slots.now) datagram.now) }
{
    let mut here = start;
    let mut word: usize = 0;
    for _ in 0..start.left.0 {
        let part = walk::locate(here, receiver, lengths, slots, datagram);
        lay_place(part, word, places);
        here = walk::next(here, datagram);
        word += PLACE_WORDS;
    }
}

// Whether an array of so many words is too short for the places of so many messages.
fn few(lent: usize, count: u16) -> bool
    ensures { result ≡ ltb lent (3 * count) }
{
    lent < PLACE_WORDS * count as usize
}

// Lays them where there is room, and says whether there isn't: nothing is laid then.
fn lay_or_lack(
    receiver: EarlyReceiver,
    lengths: &[u8],
    slots: &[u8],
    datagram: &[u8],
    places: &mut [u64],
) -> bool
    ensures value { result ≡ ltb (length places.old) (length
        (places_delivered (lent receiver lengths.now slots.now) datagram.now)) }
    ensures lays { places.new ≡ put places.old 0
        (places_delivered (lent receiver lengths.now slots.now) datagram.now) }
{
    let start = walk::start(receiver, lengths, slots, datagram);
    if few(places.len(), start.left.0) {
        return true;
    }
    lay_places(start, receiver, lengths, slots, datagram, places);
    false
}

// Takes a datagram, with a state that is long enough and words that have room. The places are laid before the step: a
// refused datagram has none, and one that has some isn't refused.
fn deliver_lent(
    state: &mut [u8],
    slots: &mut [u8],
    datagram: &[u8],
    words: &mut [u64],
    places: &mut [u64],
) -> u32
    requires { (early_size ≤ length state.old) × (7 ≤ length words.old) }
    ensures { DeliversLent result state.old state.new slots.old slots.new
        datagram.now words.old words.new places.old places.new }
{
    let receiver = host_early::read(state);
    let from = LENGTHS_AT.0;
    let to = host_early::SIZE;
    let lacks = lay_or_lack(receiver, &state[from..to], slots, datagram, places);
    if lacks {
        return host_answers::SHORT;
    }
    exports_early::eiderwagon_early_take(state, slots, datagram, words)
}

// Takes a datagram, and lays the place of each message that it delivers. With a state that is too short, or too few
// words, it is refused anyway.
#[tactic(auto, using(crate::proofs::Rules::calls))]
#[unsafe(no_mangle)]
pub extern "C" fn eiderwagon_early_deliver(
    state: &mut [u8],
    slots: &mut [u8],
    datagram: &[u8],
    words: &mut [u64],
    places: &mut [u64],
) -> u32
    ensures delivers_lent { DeliversLent result state.old state.new slots.old slots.new
        datagram.now words.old words.new places.old places.new }
    ensures refuses { RefusesOnly result (11 ∷ 12 ∷ 13 ∷ 14 ∷ 15 ∷ 16 ∷ 17 ∷ 18 ∷ 19 ∷ 20 ∷ 41 ∷ []) }
    ensures messages { PlacesAreMessages }
    ensures enough { EnoughPlaces }
    ensures still_there { StillThere }
    ensures hands_on { HandsOn }
{
    if state.len() < host_early::SIZE {
        return exports_early::eiderwagon_early_take(state, slots, datagram, words);
    }
    if words.len() < ANSWER_WORDS {
        return exports_early::eiderwagon_early_take(state, slots, datagram, words);
    }
    deliver_lent(state, slots, datagram, words, places)
}
