// A program that reads a capture over one lent buffer: each turn takes what came behind the bytes that were kept, and
// keeps what it did not use. The words of the edges are lent beside it. The program only reads, turns, and stops where
// a turn says so.
#![tactic(auto, using(crate::proofs::Rules::turning))]

ghost use Rattle.std.specs.Prelude.{◌≡◌, ◌≤◌};
ghost use Rattle.capture_events.specs.Events.{is_over_at};
ghost use Rattle.capture_events.specs.Next.{at_of};
ghost use Rattle.capture_events.specs.Turns.{most_kept};
ghost use Rattle.missing_capture.specs.Turning.{start_turning, lent_turning, turned_of, buffer_of};
ghost use Rattle.missing_capture.specs.Whole.{MissingCapturePromises};

use crate::reading::Reading;
use capture_events::there;
use capture_records::buffer;
use wire::kinds::ByteOffset;

// How far a capture was read, and how many bytes are kept at the buffer's front. A report's turns are likewise, with
// other memory lent to each: a trait for both would have longer laws than the turns have lines.
#[derive(Clone, Copy)]
pub struct Turning {
    pub reading: Reading,
    pub have: usize,
}

impl Turning {
    // Nothing read and nothing kept.
    pub fn new() -> Turning
        ensures { result ≡ start_turning }
    {
        Turning {
            reading: Reading::new(),
            have: 0,
        }
    }

    // Whether nothing that follows changes it: the program stops here.
    pub fn is_over(self) -> bool
        ensures { result ≡ is_over_at (at_of self.reading.place) }
    {
        self.reading.is_over()
    }

    // One turn, so many bytes having come behind those that were kept; none mean the end of the input, after which it
    // is over. Less than the longest record is kept, so that a buffer of that size always has room behind it.
    pub fn turn(self, edges: &mut [u64], buf: &mut [u8], got: usize) -> Turning
        ensures edges_after { lent_turning result edges.new
            ≡ turned_of (lent_turning self edges.old) buf.old got }
        ensures keeps { buf.new ≡ buffer_of self buf.old got }
        ensures little { result.have ≤ most_kept }
        ensures promises { MissingCapturePromises }
    {
        let end = there(buf.len(), self.have, got);
        if got == 0 {
            return Turning {
                reading: self.reading.finish(edges, &buf[..end]),
                have: 0,
            };
        }
        let fed = self.reading.feed(edges, &buf[..end]);
        let kept = buffer::keep(buf, ByteOffset(fed.used), ByteOffset(end));
        Turning {
            reading: fed.reading,
            have: kept.unwrap_or(0),
        }
    }
}
