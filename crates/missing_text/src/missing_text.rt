// What is written of missing ranges: all of them, or that they are too many.
#![tactic(auto, using(crate::proofs::Rules::texts))]

ghost use Rattle.wire.specs.Output.{Writes};
ghost use Rattle.missing_ranges.specs.Notes.{lent};
ghost use Rattle.missing_text.specs.Text.{missing_text, room_ground};

use crate::lines;
use missing_ranges::ranges::Missing;
use wire::kinds::SESSION_SIZE;
use wire::refusal;
use wire::refusal::Refusal;

// The bytes that are room enough for any text.
pub const ROOM: usize = 204898;

// Writes the missing ranges of a session, into an output with room for any text.
pub fn write(
    out: &mut [u8],
    name: [u8; SESSION_SIZE],
    edges: &[u64],
    missing: Missing,
) -> Result<usize, Refusal>
    ensures { Writes result out.old out.new (room_ground out.old) 0
        (missing_text name (lent missing edges.now)) }
{
    if out.len() < ROOM {
        return Err(refusal::OUTPUT_SHORT);
    }
    if !missing.is_usable(edges) {
        return capture_lines::put_refused(out, b"ranges=");
    }
    lines::put_list(out, name, edges, missing)
}
