// A whole capture in memory.
ghost use Rattle.wire.specs.Output.{Writes};
ghost use Rattle.capture.specs.Whole.{capture_text};
ghost use Rattle.capture.specs.Example.{PrintedExample};

use crate::reading::Reading;
use early_holding::holding::{LENGTH_BYTES, SLOT_BYTES};
use wire::refusal::Refusal;

// Writes what a capture prints: its report, or that its settings are refused. The receiver's lengths and slots are its
// own.
pub fn report(capture: &[u8], out: &mut [u8]) -> Result<usize, Refusal>
    ensures writes { Writes result out.old out.new 0 0 (capture_text capture.now) }
    ensures example { PrintedExample }
{
    let mut lengths = [0u8; LENGTH_BYTES];
    let mut slots = [0u8; SLOT_BYTES];
    let start = Reading::new();
    let end = start.finish(&mut lengths, &mut slots, capture);
    end.write(out)
}
