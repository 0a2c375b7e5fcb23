// A program that reads a capture over one lent buffer: each turn takes what came behind the bytes that were kept, and
// keeps what it did not use. The receiver's lengths and slots are lent beside it. The program only reads, turns, and
// stops where a turn says so.
#![tactic(auto, using(crate::proofs::Rules::turning))]

ghost use Rattle.std.specs.Prelude.{◌≡◌, ◌≤◌};
ghost use Rattle.capture_events.specs.Turns.{most_kept};
ghost use Rattle.capture.specs.Reading.{is_over};
ghost use Rattle.capture.specs.Turning.{start_turning, lent_turning, turned_of, buffer_of};
ghost use Rattle.capture.specs.Whole.{CapturePromises};

use crate::reading::Reading;
use capture_events::there;
use capture_records::buffer;
use wire::kinds::ByteOffset;

// How far a capture was read, and how many bytes are kept at the buffer's front. What is missing from a capture turns
// likewise, with other memory lent to each turn: a trait for both would have longer laws than the turns have lines.
#[derive(Clone, Copy)]
pub struct Turning {
    pub reading: Reading,
    pub have: usize,
}

impl Turning {
    // Nothing read and nothing kept.
    pub fn new() -> Turning
        ensures { result ≡ start_turning }
    {
        Turning {
            reading: Reading::new(),
            have: 0,
        }
    }

    // Whether nothing that follows changes it: the program stops here.
    pub fn is_over(self) -> bool
        ensures { result ≡ is_over self.reading.stage }
    {
        self.reading.is_over()
    }

    // One turn, so many bytes having come behind those that were kept; none mean the end of the input, after which it
    // is over. Less than the longest record is kept, so that a buffer of that size always has room behind it.
    pub fn turn(self, lengths: &mut [u8], slots: &mut [u8], buf: &mut [u8], got: usize) -> Turning
        ensures slots_after { lent_turning result lengths.new slots.new
            ≡ turned_of (lent_turning self lengths.old slots.old) buf.old got }
        ensures keeps { buf.new ≡ buffer_of self buf.old got }
        ensures little { result.have ≤ most_kept }
        ensures promises { CapturePromises }
    {
        let end = there(buf.len(), self.have, got);
        if got == 0 {
            return Turning {
                reading: self.reading.finish(lengths, slots, &buf[..end]),
                have: 0,
            };
        }
        let fed = self.reading.feed(lengths, slots, &buf[..end]);
        let kept = buffer::keep(buf, ByteOffset(fed.used), ByteOffset(end));
        Turning {
            reading: fed.reading,
            have: kept.unwrap_or(0),
        }
    }
}
