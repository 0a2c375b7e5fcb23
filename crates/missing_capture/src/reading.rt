// A capture that comes in pieces. What is there is fed; the bytes that were not used are kept, and fed again in front
// of the next piece. The words of the edges are lent to every call, as the one before left them.
#![tactic(auto, using(crate::proofs::Rules::readings))]

ghost use Rattle.std.specs.Prelude.{◌≡◌, drop};
ghost use Rattle.wire.specs.Bounds.{length_size};
ghost use Rattle.wire.specs.Output.{Writes};
ghost use Rattle.capture_events.specs.Events.{fold, is_over_at, read_on};
ghost use Rattle.capture_events.specs.Next.{at_of, events_in};
ghost use Rattle.missing_records.specs.Records.{lent_notes};
ghost use Rattle.missing_text.specs.Text.{room_ground};
ghost use Rattle.missing_capture.specs.Reading.{start_reading, lent_reading, lent_fed, noted_by, fed_by, feed_of};
ghost use Rattle.missing_capture.specs.Reading.{finish_of, text_of, PrintsIn};
ghost use Rattle.missing_capture.specs.Whole.{MissingCapturePromises};

use capture_events::place::{Found, Place};
use capture_lines;
use missing_ranges::ranges::Missing;
use missing_records::Notes;
use missing_text::missing_text as text;
use missing_text::missing_text::ROOM;
use wire::kinds::{LENGTH_SIZE, SequenceNumber};
use wire::refusal::Refusal;
use wire::{kinds, refusal};

// How far a capture was read, and what is noted of its session.
#[derive(Clone, Copy)]
pub struct Reading {
    pub place: Place,
    pub notes: Notes,
}

// A reading after some bytes, and how many of them were used.
#[derive(Clone, Copy)]
pub struct Fed {
    pub reading: Reading,
    pub used: usize,
}

// What one event makes of some notes: the bytes of a datagram are its record's, with its length in front.
fn note(notes: Notes, edges: &mut [u64], event: Found, bytes: &[u8]) -> Notes
    ensures { lent_notes result edges.new
        ≡ fold noted_by (lent_notes notes edges.old) (events_in (Some event) bytes.now) }
{
    match event {
        Found::Opened(settings) => Notes::start(edges, settings.session, settings.next),
        Found::BadSettings => notes,
        Found::Datagram => notes.take(edges, datagram_of(bytes)),
    }
}

// What follows the length of a record; a byte past the end is none.
fn datagram_of(bytes: &[u8]) -> &[u8]
    ensures { result.now ≡ drop length_size bytes.now }
{
    match bytes.get(LENGTH_SIZE..) {
        Some(datagram) => datagram,
        None => &bytes[..0],
    }
}

impl Reading {
    // Nothing read yet: no name, and no ranges.
    pub fn new() -> Reading
        ensures { result ≡ start_reading }
    {
        Reading {
            place: Place::Settings,
            notes: Notes {
                session: kinds::BLANK,
                missing: Missing {
                    refused: true,
                    closed: 0,
                    highest: SequenceNumber(0),
                },
            },
        }
    }

    // What the bytes make of a reading, taken as enough to tell the settings: their events, one by one.
    fn advance(self, edges: &mut [u64], bytes: &[u8]) -> Fed
        ensures { lent_fed result edges.new
            ≡ fed_by (lent_notes self.notes edges.old)
            (read_on (at_of self.place) bytes.now) }
    {
        let mut place = self.place;
        let mut notes = self.notes;
        let mut rest = bytes;
        loop {
            let next = place.look(rest);
            place = next.place;
            let Some(event) = next.event else {
                return Fed {
                    reading: Reading { place, notes },
                    used: bytes.len() - rest.len() + next.used,
                };
            };
            notes = note(notes, edges, event, &rest[..next.used]);
            rest = &rest[next.used..];
        }
    }

    // Whether nothing that follows changes it.
    pub fn is_over(self) -> bool
        ensures { result ≡ is_over_at (at_of self.place) }
    {
        self.place.is_over()
    }

    // Feeds some bytes, after which more may come.
    pub fn feed(self, edges: &mut [u64], bytes: &[u8]) -> Fed
        ensures edges_after { lent_fed result edges.new
            ≡ feed_of (lent_reading self edges.old) bytes.now }
        ensures promises { MissingCapturePromises }
    {
        if self.place.waits(bytes.len()) {
            return Fed {
                reading: self,
                used: 0,
            };
        }
        self.advance(edges, bytes)
    }

    // Feeds the last bytes: what is left of them is a record that is cut short, and says nothing.
    pub fn finish(self, edges: &mut [u64], bytes: &[u8]) -> Reading
        ensures { lent_reading result edges.new
            ≡ finish_of (lent_reading self edges.old) bytes.now }
    {
        let reading = self.advance(edges, bytes).reading;
        Reading {
            place: reading.place.end(),
            ..reading
        }
    }

    // Writes what a reading prints, into an output with room for any text: the missing ranges, or that they are too
    // many; or that the settings are refused, as they also are while none were read.
    pub fn write(self, edges: &[u64], out: &mut [u8]) -> Result<usize, Refusal>
        ensures { Writes result out.old out.new (room_ground out.old) 0
            (text_of (lent_reading self edges.now)) }
    {
        if out.len() < ROOM {
            return Err(refusal::OUTPUT_SHORT);
        }
        let Notes { session, missing } = self.notes;
        match self.place {
            Place::Settings | Place::Refused => capture_lines::put_refused(out, b"settings="),
            Place::Records { .. } | Place::Done => text::write(out, session, edges, missing),
        }
    }

    // Lays what it prints at the front of an output, and answers how many bytes that is: all of it, where the output
    // has room for any text.
    pub fn printed(self, edges: &[u64], out: &mut [u8]) -> usize
        ensures { PrintsIn result out.old out.new
            (text_of (lent_reading self edges.now)) }
    {
        self.write(edges, out).unwrap_or(0)
    }
}
