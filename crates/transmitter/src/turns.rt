// The packets of a run one after another, so that a whole run is sent in one walk. How far earlier packets have come is
// two numbers, which anyone can make up or use with another run, so a turn takes any: the packet is then well-formed,
// of that run's bytes from where the numbers say.
#![tactic(auto, using(crate::proofs::Rules::groups, crate::proofs::Rules::moves, crate::proofs::Rules::runs, crate::proofs::Rules::turns, crate::proofs::Rules::writes))]

ghost use Rattle.std.specs.Prelude.{◌≡◌, ◌+◌, ◌-◌, ◌≤◌, ◌<◌, ◌^◌, drop};
ghost use Rattle.wire.specs.Output.{Writes};
ghost use Rattle.wire.specs.Words.{refused_by};
ghost use Rattle.packing.specs.Fit.{size_ground, room_of, fitting};
ghost use Rattle.transmitter.specs.Transmitter.{run_ground};
ghost use Rattle.transmitter.specs.Turns.{start_of_run, next_ground, next_bytes, progress_after, TurnsGoByPlace};
ghost use Rattle.transmitter.specs.Witness.{NotVacuous};
ghost use Rattle.transmitter.specs.Walk.{past, moved, group_ground, Turns};

use crate::run;
use moldudp64_writer::downstream;
use packing::fit::Fit;
use packing::{fit, size};
use wire::kinds::{ByteOffset, LARGEST_NUMBER, SESSION_SIZE, SequenceNumber};
use wire::refusal::Refusal;
use wire::{parts, refusal};

// How many messages earlier packets took, and the bytes of their data.
#[derive(Clone, Copy, Debug, PartialEq, Eq)]
pub struct Progress {
    pub messages: usize,
    pub bytes: usize,
}

// A start that isn't refused begins at the first message.
#[derive(Clone, Copy, Debug, PartialEq, Eq)]
pub struct Started {
    pub refusal: Refusal,
    pub progress: Progress,
}

// What a turn wrote, and the progress then.
#[derive(Clone, Copy, Debug, PartialEq, Eq)]
pub struct Turn {
    pub written: Result<usize, Refusal>,
    pub progress: Progress,
}

// Before the first packet.
pub(crate) const BEGINNING: Progress = Progress {
    messages: 0,
    bytes: 0,
};

// Checks a whole run, once.
pub fn start(first: SequenceNumber, lengths: &[u16], joined: &[u8], size: usize) -> Started
    ensures number_value { (result.refusal.number ≡ run_ground size first.0 lengths.now joined.now)
        × (result.progress ≡ start_of_run size first.0 lengths.now joined.now) }
    ensures by_place { TurnsGoByPlace }
    ensures not_vacuous { NotVacuous }
{
    if let Err(refusal) = run::check(first, lengths, joined, size) {
        return Started {
            refusal,
            progress: Progress {
                messages: lengths.len(),
                bytes: joined.len(),
            },
        };
    }
    Started {
        refusal: refusal::NONE,
        progress: BEGINNING,
    }
}

impl Progress {
    // The most that fit of the messages that are left.
    pub(crate) fn group(self, lengths: &[u16], room: usize) -> Fit
        ensures { result ≡ fitting room (drop self.messages lengths.now) }
    {
        let from = self.messages;
        if lengths.len() <= from {
            return Fit { count: 0, bytes: 0 };
        }
        fit::most_that_fit(&lengths[from..], room)
    }

    // The progress past a group.
    pub(crate) fn past(self, group: Fit) -> Progress
        requires { (self.messages + group.count < 2 ^ 64) × (self.bytes + group.bytes < 2 ^ 64) }
        ensures { result ≡ past self group }
    {
        Progress {
            messages: self.messages + group.count,
            bytes: self.bytes + group.bytes,
        }
    }

    // The progress after a group was written, or refused.
    fn after(self, group: Fit, written: Result<usize, Refusal>) -> Progress
        requires { (self.messages + group.count < 2 ^ 64) × (self.bytes + group.bytes < 2 ^ 64) }
        ensures { result ≡ moved self group written }
    {
        match written {
            Ok(_) => self.past(group),
            Err(_) => self,
        }
    }

    // A turn's grounds behind its size: all is how many messages the run has, and have how much of the group's data is
    // there.
    fn check_group(
        self,
        first: SequenceNumber,
        all: usize,
        group: Fit,
        have: usize,
    ) -> Result<(), Refusal>
        requires { group.count ≤ all - self.messages }
        ensures { result ≡ refused_by (group_ground first.0 all self group have) }
    {
        let messages = self.messages;
        if all <= messages {
            return Err(refusal::NO_SUCH_PACKET);
        }
        if group.bytes != have {
            return Err(refusal::LENGTHS_DIFFER);
        }
        // before 13, so that the number can't wrap: number 0 has room for any group
        if LARGEST_NUMBER.0 - first.0 < (messages + group.count) as u64 {
            return Err(refusal::NUMBERS_RUN_OUT);
        }
        if first.0 + messages as u64 == 0 {
            return Err(refusal::NUMBER_ZERO);
        }
        if group.count == 0 {
            return Err(refusal::MESSAGE_LONG);
        }
        Ok(())
    }

    // The grounds of a turn whose size is good.
    fn check(
        self,
        first: SequenceNumber,
        lengths: &[u16],
        joined: &[u8],
        size: usize,
        group: Fit,
    ) -> Result<(), Refusal>
        requires { (size_ground size ≡ 0) × (group ≡ fitting (room_of size) (drop self.messages lengths.now)) }
        ensures { result ≡ refused_by (next_ground size first.0 lengths.now joined.now self) }
    {
        let data = parts::part(joined, ByteOffset(self.bytes), group.bytes);
        self.check_group(first, lengths.len(), group, data.len())
    }

    // Writes the group of a turn that has no ground.
    fn write(
        self,
        out: &mut [u8],
        session: [u8; SESSION_SIZE],
        first: SequenceNumber,
        lengths: &[u16],
        joined: &[u8],
        size: usize,
        group: Fit,
    ) -> Turn
        requires { (next_ground size first.0 lengths.now joined.now self ≡ 0)
            × (group ≡ fitting (room_of size) (drop self.messages lengths.now)) }
        ensures { Turns result session size first.0 lengths.now joined.now self
            out.old out.new }
    {
        let from = self.messages;
        let to = from + group.count;
        let number = SequenceNumber(first.0 + from as u64);
        let data = parts::part(joined, ByteOffset(self.bytes), group.bytes);
        let written = downstream::write_messages(out, session, number, &lengths[from..to], data);
        let progress = self.after(group, written);
        Turn { written, progress }
    }

    // Writes the next packet. A refusal leaves the progress as it was.
    pub fn next(
        self,
        out: &mut [u8],
        session: [u8; SESSION_SIZE],
        first: SequenceNumber,
        lengths: &[u16],
        joined: &[u8],
        size: usize,
    ) -> Turn
        ensures { Writes result.written out.old out.new
            (next_ground size first.0 lengths.now joined.now self)
            0
            (next_bytes session size first.0 lengths.now joined.now self)
            × (result.progress ≡ progress_after session size first.0 lengths.now joined.now self
            out.old) }
    {
        if let Err(bad) = size::check(size) {
            return Turn {
                written: Err(bad),
                progress: self,
            };
        }
        let group = self.group(lengths, size::room(size));
        if let Err(refused) = self.check(first, lengths, joined, size, group) {
            return Turn {
                written: Err(refused),
                progress: self,
            };
        }
        self.write(out, session, first, lengths, joined, size, group)
    }
}
