// A datagram taken by the receiver and the places of all messages that it delivers, in one call, for hosts in other
// languages. It has a crate of its own, so that the reader has one caller there and is compiled into it.
// `include/eiderwagon.h` says what the function takes and answers.
#![tactic(auto, using(crate::proofs::Rules::answering, crate::proofs::Rules::behind, crate::proofs::Rules::delivering, crate::proofs::Rules::finding, crate::proofs::Rules::laying, crate::proofs::Rules::passing))]

ghost use Rattle.std.specs.Prelude.{◌≡◌, [], ◌∷◌, true, ◌+◌, ◌-◌, ◌*◌, ◌≤◌, length, drop, Ok};
ghost use Rattle.wire.specs.Bounds.{length_size};
ghost use Rattle.wire.specs.Output.{put};
ghost use Rattle.moldudp64.specs.Header.{header_size};
ghost use Rattle.moldudp64.specs.Blocks.{block_length, all_fit, after_blocks};
ghost use Rattle.moldudp64.specs.Downstream.{downstream_of, downstream_words};
ghost use Rattle.receiver.specs.Table.{answer_words};
ghost use Rattle.host_answers.specs.Answers.{RefusesOnly};
ghost use Rattle.host_receiver.specs.Receiver.{receiver_size};
ghost use Rattle.exports_deliver.specs.Places.{places_at, places_behind, PlacesAreMessages, EnoughPlaces, Finds};
ghost use Rattle.exports_deliver.specs.Calls.{DeliversDatagram, BlocksThere, LaysAnswer};
ghost use Rattle.exports_deliver.specs.Run.{HandsOn};
ghost use Rattle.exports_deliver.specs.Example.{HandedExample};

use host_receiver::answers;
use moldudp64::downstream::Downstream;
use moldudp64::{downstream, header};
use receiver::receiver::Answer;
use wire::kinds::{LENGTH_SIZE, MessageCount, MessagePlace};

// Words of a place: the offset of a message's first data byte in the datagram, and its length.
const PLACE_WORDS: usize = 2;

// How much an answer delivers: so many messages, behind so many that are skipped.
#[derive(Clone, Copy)]
struct Delivery {
    count: MessageCount,
    skipped: MessagePlace,
}

// What a deliver answer delivers; every other delivers none.
fn delivery_of(answer: Answer) -> Delivery
    ensures { Finds result.count.0 result.skipped.0 (answer_words answer) }
{
    match answer {
        Answer::Deliver { count, skipped, .. } => Delivery { count, skipped },
        _ => NOTHING,
    }
}

const NOTHING: Delivery = Delivery {
    count: MessageCount(0),
    skipped: MessagePlace(0),
};

// The data bytes of the block at a place, whose length field is there.
fn length_at(datagram: &[u8], at: usize) -> u16
    requires { at + length_size ≤ length datagram.now }
    ensures { result ≡ block_length (drop at datagram.now) }
{
    join(datagram[at], datagram[at + 1])
}

fn join(high: u8, low: u8) -> u16
    ensures { result ≡ high * 256 + low }
{
    u16::from(high) * 256 + u16::from(low)
}

// The place behind so many blocks, which are there.
fn behind_blocks(datagram: &[u8], blocks: u16) -> usize
    requires { (header_size ≤ length datagram.now) × (all_fit blocks (drop header_size datagram.now) ≡ true) }
    ensures { result ≡ length datagram.now
        - length (after_blocks blocks (drop header_size datagram.now)) }
{
    let mut at = header::SIZE;
    for _ in 0..blocks {
        at += usize::from(length_at(datagram, at)) + LENGTH_SIZE;
    }
    at
}

// Lays the places of so many blocks from a place on, which are there. There is room for the places, so that the test
// of it never ends the loop: with this second way out the compiler lays one place a turn, and not two and then one or
// none, whose end a processor may foresee badly (a datagram then took a third longer).
fn lay_places(datagram: &[u8], from: usize, count: u16, places: &mut [u64])
    requires { (all_fit count (drop from datagram.now) ≡ true) × (2 * count ≤ length places.old) }
    ensures { places.new
        ≡ put places.old 0 (places_at count from (drop from datagram.now)) }
{
    let mut at = from;
    for index in 0..count {
        let word = PLACE_WORDS * usize::from(index);
        if places.len() < word + PLACE_WORDS {
            return;
        }
        let length = usize::from(length_at(datagram, at));
        at += LENGTH_SIZE;
        places[word] = at as u64;
        places[word + 1] = length as u64;
        at += length;
    }
}

// Lays the places of so many messages behind those that are skipped: all of their blocks are there.
fn lay_behind(datagram: &[u8], count: u16, skipped: u16, places: &mut [u64])
    requires { (header_size ≤ length datagram.now)
        × (all_fit (skipped + count) (drop header_size datagram.now) ≡ true) × (2 * count ≤ length places.old) }
    ensures { places.new
        ≡ put places.old 0 (places_behind count skipped datagram.now) }
{
    lay_places(datagram, behind_blocks(datagram, skipped), count, places);
}

// Answers by an answer's words, and lays the places of what it delivers: its blocks are there. Too few places are known
// before anything is laid.
fn lay_answer(answer: Answer, datagram: &[u8], words: &mut [u64], places: &mut [u64]) -> u32
    requires { BlocksThere (answer_words answer) datagram.now }
    ensures { LaysAnswer result (answer_words answer) datagram.now words.old words.new
        places.old places.new }
{
    let delivery = delivery_of(answer);
    let count = delivery.count.0;
    let skipped = delivery.skipped.0;
    let few = places.len() < PLACE_WORDS * usize::from(count);
    let said = host_answers::or_short(answers::answer_words(answer), few);
    let code = host_answers::answer(words, said);
    if code != 0 {
        return code;
    }
    lay_behind(datagram, count, skipped, places);
    code
}

// Takes a datagram that was read, with a state that is long enough.
fn deliver_read(
    state: &mut [u8],
    packet: Downstream,
    datagram: &[u8],
    words: &mut [u64],
    places: &mut [u64],
) -> u32
    requires { (downstream_words (Ok packet) ≡ downstream_of datagram.now) × (receiver_size ≤ length state.old) }
    ensures delivers_datagram { DeliversDatagram result state.old state.new datagram.now
        words.old words.new places.old places.new }
    ensures refuses { RefusesOnly result (11 ∷ 12 ∷ 13 ∷ 14 ∷ 15 ∷ 16 ∷ 17 ∷ 18 ∷ 20 ∷ 41 ∷ []) }
{
    let taken = host_receiver::read(state).take_read(Ok(packet), datagram);
    let code = lay_answer(taken.answer, datagram, words, places);
    host_receiver::write(state, code, taken.receiver)
}

// Takes a datagram, and lays the place of each message that it delivers. It is read before the state is: 11 to 16 need
// none.
#[unsafe(no_mangle)]
pub extern "C" fn eiderwagon_receiver_deliver(
    state: &mut [u8],
    datagram: &[u8],
    words: &mut [u64],
    places: &mut [u64],
) -> u32
    ensures delivers_datagram { DeliversDatagram result state.old state.new datagram.now
        words.old words.new places.old places.new }
    ensures refuses { RefusesOnly result (11 ∷ 12 ∷ 13 ∷ 14 ∷ 15 ∷ 16 ∷ 17 ∷ 18 ∷ 20 ∷ 41 ∷ []) }
    ensures messages { PlacesAreMessages }
    ensures enough { EnoughPlaces }
    ensures hands_on { HandsOn }
    ensures not_vacuous { HandedExample }
{
    let packet = match downstream::read(datagram) {
        Ok(packet) => packet,
        Err(r) => return u32::from(r.number),
    };
    if state.len() < host_receiver::SIZE {
        return host_answers::SHORT;
    }
    deliver_read(state, packet, datagram, words, places)
}
