// The transmitter for hosts in other languages: a run of messages cut into packets, asked for by place or one after
// another. `include/eiderwagon.h` says what each function takes and answers.
#![tactic(auto, using(crate::proofs::Rules::nexts, crate::proofs::Rules::packets, crate::proofs::Rules::starts))]

ghost use Rattle.std.specs.Prelude.{[], ◌∷◌};
ghost use Rattle.wire.specs.Bounds.{session_size};
ghost use Rattle.wire.specs.Parts.{first_bytes};
ghost use Rattle.transmitter.specs.Transmitter.{transmit_ground, packet_at};
ghost use Rattle.host_answers.specs.Answers.{named, RefusesOnly, AnswersWriting};
ghost use Rattle.exports_transmitter.specs.Calls.{StartsTransmitter, NextPacket};
ghost use Rattle.exports_transmitter.specs.Run.{HandsOn};
ghost use Rattle.exports_transmitter.specs.Example.{HandedExample};

use host_answers::WRITTEN_WORDS;
use packing::size;
use transmitter::{place, turns};
use wire::kinds::{SESSION_SIZE, SequenceNumber};
use wire::parts;

// Writes the packet at a place.
#[unsafe(no_mangle)]
pub extern "C" fn eiderwagon_transmitter_packet(
    session: &[u8],
    first: u64,
    lengths: &[u16],
    joined: &[u8],
    size: u64,
    place: u64,
    out: &mut [u8],
    words: &mut [u64],
) -> u32
    ensures answers_writing { AnswersWriting result words.old words.new out.old
        out.new
        (named session.now
        (transmit_ground size first lengths.now joined.now place))
        (packet_at (first_bytes session_size session.now) size first lengths.now
        joined.now place) }
    ensures refuses { RefusesOnly result (19 ∷ 44 ∷ 13 ∷ 14 ∷ 52 ∷ 54 ∷ 41 ∷ []) }
{
    let unnamed = session.len() != SESSION_SIZE;
    let from = host_answers::lent_from(unnamed | (words.len() < WRITTEN_WORDS), out.len());
    let name = parts::first(session);
    let written = place::write(
        &mut out[from..],
        name,
        SequenceNumber(first),
        lengths,
        joined,
        size as usize,
        place,
    );
    host_answers::answer_written(words, unnamed, written)
}

// Starts the packets of a run one after another.
#[unsafe(no_mangle)]
pub extern "C" fn eiderwagon_transmitter_start(
    first: u64,
    lengths: &[u16],
    joined: &[u8],
    size: u64,
    state: &mut [u8],
) -> u32
    ensures starts_transmitter { StartsTransmitter result size first lengths.now joined.now state.old
        state.new }
    ensures refuses { RefusesOnly result (19 ∷ 44 ∷ 13 ∷ 14 ∷ 52 ∷ 41 ∷ []) }
    ensures hands_on { HandsOn }
    ensures not_vacuous { HandedExample }
{
    let started = turns::start(SequenceNumber(first), lengths, joined, size as usize);
    host_transmitter::write(state, u32::from(started.refusal.number), started.progress)
}

// Writes the next packet.
#[unsafe(no_mangle)]
pub extern "C" fn eiderwagon_transmitter_next(
    session: &[u8],
    first: u64,
    lengths: &[u16],
    joined: &[u8],
    size: u64,
    state: &mut [u8],
    out: &mut [u8],
    words: &mut [u64],
) -> u32
    ensures next_packet { NextPacket result session.now size first lengths.now joined.now
        state.old state.new out.old out.new words.old
        words.new }
    ensures refuses { RefusesOnly result (19 ∷ 44 ∷ 13 ∷ 14 ∷ 52 ∷ 54 ∷ 41 ∷ []) }
{
    // the size alone needs no state
    if state.len() < host_transmitter::SIZE {
        return match size::check(size as usize) {
            Ok(()) => host_answers::SHORT,
            Err(r) => u32::from(r.number),
        };
    }
    let unnamed = session.len() != SESSION_SIZE;
    let from = host_answers::lent_from(unnamed | (words.len() < WRITTEN_WORDS), out.len());
    let name = parts::first(session);
    let turn = host_transmitter::read(state).next(
        &mut out[from..],
        name,
        SequenceNumber(first),
        lengths,
        joined,
        size as usize,
    );
    let code = host_answers::answer_written(words, unnamed, turn.written);
    host_transmitter::write(state, code, turn.progress)
}
