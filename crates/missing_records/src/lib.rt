// The missing ranges of a session, from datagram to datagram. The edges of the ranges stand in lent words.
#![tactic(auto, using(crate::proofs::Rules::taking))]

ghost use Rattle.std.specs.Prelude.{◌≡◌, take};
ghost use Rattle.wire.specs.Bounds.{session_size};
ghost use Rattle.wire.specs.Bytes.{same_bytes};
ghost use Rattle.missing_records.specs.Records.{lent_notes, start_notes, take_of, noted_if, IsSaid};
ghost use Rattle.missing_records.specs.Promises.{DatagramPromises};

use missing_ranges::ranges::Missing;
use moldudp64::downstream::Downstream;
use moldudp64::{downstream, header};
use wire::kinds::{SESSION_SIZE, SequenceNumber};
use wire::refusal::Refusal;

// What is noted of a session: its name, and its missing ranges.
#[derive(Clone, Copy)]
pub struct Notes {
    pub session: [u8; SESSION_SIZE],
    pub missing: Missing,
}

// What a datagram says: the first number that it carries, and the next one that it states or implies.
#[derive(Clone, Copy)]
struct Said {
    first: SequenceNumber,
    next: SequenceNumber,
}

fn said_in(datagram: &[u8]) -> Result<Said, Refusal>
    ensures { IsSaid result datagram.now }
{
    match downstream::read(datagram)? {
        Downstream::Data { first, count } => Ok(Said {
            first,
            next: first.plus(count),
        }),
        Downstream::Heartbeat { next } | Downstream::EndOfSession { next } => Ok(Said {
            first: next,
            next,
        }),
    }
}

impl Notes {
    // No datagram yet: what is missing begins at a number.
    pub fn start(edges: &mut [u64], session: [u8; SESSION_SIZE], next: SequenceNumber) -> Notes
        ensures { lent_notes result edges.new ≡ start_notes session edges.old next.0 }
    {
        let missing = Missing::start(edges, next);
        Notes { session, missing }
    }

    // Notes the numbers of a datagram that was read, where it is of the session's name.
    fn note(
        self,
        edges: &mut [u64],
        datagram: &[u8],
        first: SequenceNumber,
        next: SequenceNumber,
    ) -> Notes
        ensures { lent_notes result edges.new
            ≡ noted_if (same_bytes (take session_size datagram.now) self.session)
            (lent_notes self edges.old) first.0 next.0 }
    {
        let Notes { session, missing } = self;
        if header::has_session(datagram, session) {
            return Notes {
                session,
                missing: missing.note(edges, first, next),
            };
        }
        self
    }

    // Takes a datagram, with one walk over its blocks: what it carries and states is noted where it is read without
    // refusal and of the session's name.
    pub fn take(self, edges: &mut [u64], datagram: &[u8]) -> Notes
        ensures edges_after { lent_notes result edges.new
            ≡ take_of (lent_notes self edges.old) datagram.now }
        ensures promises { DatagramPromises }
    {
        match said_in(datagram) {
            Ok(said) => self.note(edges, datagram, said.first, said.next),
            Err(_) => self,
        }
    }
}
