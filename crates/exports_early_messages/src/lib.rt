// What a datagram will deliver, before the receiver that keeps early messages takes it: how many messages, each by its
// place, and all in one walk, for hosts in other languages. `include/eiderwagon.h` says what each function takes and
// answers.
#![tactic(auto, using(crate::proofs::Rules::parts))]

pub mod walks;

ghost use Rattle.std.specs.Prelude.{◌≡◌, [], ◌∷◌};
ghost use Rattle.host_answers.specs.Answers.{RefusesOnly, AnswersWith};
ghost use Rattle.host_early.specs.Slots.{slots_refusal};
ghost use Rattle.exports_early_messages.specs.Calls.{CountsMessages, LocatesMessage};

use early_holding::holding::SLOT_BYTES;
use early_messages::message;
use host_early::{LENGTHS_AT, answers};
use wire::kinds::MessagePlace;
use wire::refusal;

// The code of slots of another size, or 0.
fn slots_code(slots: &[u8]) -> u32
    ensures { result ≡ slots_refusal slots.now }
{
    if slots.len() == SLOT_BYTES {
        0
    } else {
        u32::from(refusal::BAD_SETTING.number)
    }
}

// Answers values; 19 where the slots aren't of their size.
fn answer_sized<const N: usize>(words: &mut [u64], slots: &[u8], values: [u64; N]) -> u32
    ensures { AnswersWith result words.old words.new (slots_refusal slots.now) values.entry }
{
    if slots.len() != SLOT_BYTES {
        return host_answers::answer::<N>(words, Err(refusal::BAD_SETTING));
    }
    host_answers::answer(words, Ok(values))
}

// How many messages a datagram will deliver.
#[unsafe(no_mangle)]
pub extern "C" fn eiderwagon_early_count(
    state: &[u8],
    slots: &[u8],
    datagram: &[u8],
    words: &mut [u64],
) -> u32
    ensures counts_messages { CountsMessages result state.now slots.now datagram.now
        words.old words.new }
    ensures refuses { RefusesOnly result (19 ∷ 41 ∷ []) }
{
    if state.len() < host_early::SIZE {
        return host_answers::SHORT;
    }
    let from = LENGTHS_AT.0;
    let to = host_early::SIZE;
    let count = message::count(host_early::read(state), &state[from..to], slots, datagram);
    answer_sized(words, slots, [u64::from(count.0)])
}

// Where the message at a place lies.
#[unsafe(no_mangle)]
pub extern "C" fn eiderwagon_early_locate(
    state: &[u8],
    slots: &[u8],
    datagram: &[u8],
    place: u16,
    words: &mut [u64],
) -> u32
    ensures locates_message { LocatesMessage result state.now slots.now datagram.now place
        words.old words.new }
    ensures refuses { RefusesOnly result (19 ∷ 41 ∷ []) }
{
    if state.len() < host_early::SIZE {
        return host_answers::SHORT;
    }
    let from = LENGTHS_AT.0;
    let to = host_early::SIZE;
    let part = message::locate(
        host_early::read(state),
        &state[from..to],
        slots,
        datagram,
        MessagePlace(place),
    );
    answer_sized(words, slots, answers::part_words(part))
}
