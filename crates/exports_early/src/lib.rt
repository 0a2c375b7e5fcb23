// The receiver that keeps early messages for hosts in other languages: started, and given datagrams.
// `include/eiderwagon.h` says what each function takes and answers.
#![tactic(auto, using(crate::proofs::Rules::keeps, crate::proofs::Rules::refuses, crate::proofs::Rules::takes))]

ghost use Rattle.std.specs.Prelude.{◌≡◌, [], ◌∷◌, ◌≤◌, length};
ghost use Rattle.moldudp64.specs.Downstream.{downstream_of, downstream_words};
ghost use Rattle.host_answers.specs.Answers.{or_else, RefusesOnly};
ghost use Rattle.host_early.specs.Early.{early_size, lent_in};
ghost use Rattle.early_receiver.specs.Early.{early_refusal};
ghost use Rattle.exports_early.specs.Calls.{StartsKeeper, TakesLent, Answered};
ghost use Rattle.exports_early.specs.Run.{HandsOn, HostGetsTrue};

use early_holding::holding::SLOT_BYTES;
use early_receiver::early;
use early_receiver::early::Taken;
use host_early::answers::{ANSWER_WORDS, ROW_WORDS};
use host_early::{LENGTHS_AT, answers};
use moldudp64::downstream;
use moldudp64::downstream::Downstream;
use wire::kinds::{MessageCount, SESSION_SIZE, SequenceNumber};
use wire::refusal::Refusal;
use wire::{parts, refusal};

// Starts a receiver.
#[tactic(auto, using(crate::proofs::Rules::starts))]
#[unsafe(no_mangle)]
pub extern "C" fn eiderwagon_early_start(
    session: &[u8],
    next: u64,
    limit: u16,
    state: &mut [u8],
) -> u32
    ensures starts_keeper { StartsKeeper result session.now next limit state.old state.new }
    ensures refuses { RefusesOnly result (19 ∷ 41 ∷ []) }
    ensures hands_on { HandsOn }
    ensures condition_3 { HostGetsTrue }
{
    let started = early_condition_3::start(
        parts::first(session),
        SequenceNumber(next),
        MessageCount(limit),
    );
    let refused = host_answers::unless_sized(
        session.len(),
        SESSION_SIZE,
        refusal::BAD_SETTING,
        started.refusal,
    );
    host_early::write_fresh(state, u32::from(refused.number), started.receiver)
}

// Takes a datagram. It is read before the state is: 11 to 16 need none.
#[unsafe(no_mangle)]
pub extern "C" fn eiderwagon_early_take(
    state: &mut [u8],
    slots: &mut [u8],
    datagram: &[u8],
    words: &mut [u64],
) -> u32
    ensures takes_lent { TakesLent result state.old state.new slots.old slots.new
        datagram.now words.old words.new }
    ensures refuses { RefusesOnly result (11 ∷ 12 ∷ 13 ∷ 14 ∷ 15 ∷ 16 ∷ 17 ∷ 18 ∷ 19 ∷ 20 ∷ 41 ∷ []) }
{
    let packet = downstream::read(datagram);
    if let Err(unread) = packet {
        return u32::from(unread.number);
    }
    if state.len() < host_early::SIZE {
        return host_answers::SHORT;
    }
    take_read(state, slots, packet, datagram, words)
}

// Takes a datagram that was read, with a state that is long enough: what can be told without the slots at once.
fn take_read(
    state: &mut [u8],
    slots: &mut [u8],
    packet: Result<Downstream, Refusal>,
    datagram: &[u8],
    words: &mut [u64],
) -> u32
    requires { (downstream_words packet ≡ downstream_of datagram.now) × ((downstream_words packet).refusal ≡ 0)
        × (early_size ≤ length state.old) }
    ensures { TakesLent result state.old state.new slots.old slots.new
        datagram.now words.old words.new }
{
    if words.len() < ANSWER_WORDS {
        return refuse(state, slots, packet, datagram);
    }
    if slots.len() != SLOT_BYTES {
        return take_lent(state, slots, packet, datagram, words);
    }
    let settled = early::settle(host_early::read(state), packet, datagram);
    if !settled.applies {
        return take_lent(state, slots, packet, datagram, words);
    }
    keep(state, words, settled.taken)
}

// The same with slots and lengths lent, by words that have room. It has two callers, so that it isn't compiled into the
// short way.
fn take_lent(
    state: &mut [u8],
    slots: &mut [u8],
    packet: Result<Downstream, Refusal>,
    datagram: &[u8],
    words: &mut [u64],
) -> u32
    requires { (downstream_words packet ≡ downstream_of datagram.now) × ((downstream_words packet).refusal ≡ 0)
        × (early_size ≤ length state.old) × (7 ≤ length words.old) }
    ensures { TakesLent result state.old state.new slots.old slots.new
        datagram.now words.old words.new }
{
    let receiver = host_early::read(state);
    let from = LENGTHS_AT.0;
    let to = host_early::SIZE;
    let taken = early::take_read(receiver, packet, &mut state[from..to], slots, datagram);
    keep(state, words, taken)
}

// The refusal of a datagram that was read, or 41 where nothing else is refused but the words.
fn refuse(state: &[u8], slots: &[u8], packet: Result<Downstream, Refusal>, datagram: &[u8]) -> u32
    requires { (downstream_words packet ≡ downstream_of datagram.now) × (early_size ≤ length state.now) }
    ensures { result ≡ or_else
        (early_refusal (lent_in state.now slots.now) datagram.now) 41 }
{
    let from = LENGTHS_AT.0;
    let to = host_early::SIZE;
    let checked = early::check(
        host_early::read(state),
        packet,
        &state[from..to],
        slots,
        datagram,
    );
    match checked {
        Ok(()) => host_answers::SHORT,
        Err(refused) => u32::from(refused.number),
    }
}

// Answers by words that have room, and lays the receiver, whose lengths stand there already.
fn keep(state: &mut [u8], words: &mut [u64], taken: Taken) -> u32
    requires { (early_size ≤ length state.old) × (7 ≤ length words.old) }
    ensures { Answered result state.old state.new words.old words.new
        taken }
{
    let code = host_answers::answer(words, answers::answer_words(taken.answer));
    if code != 0 {
        return code;
    }
    let asked = answers::request_words(taken.request);
    host_answers::answer(&mut words[ROW_WORDS..], Ok(asked));
    host_early::write(state, taken.receiver);
    code
}
