// The lines of missing ranges, laid one after the other into an output that has room for them.
#![tactic(auto, using(crate::proofs::Rules::ranges, crate::proofs::Rules::texts))]

ghost use Rattle.std.specs.Prelude.{◌+◌, ◌*◌, ◌-◌, ◌≤◌, ◌≡◌, true, ◌++◌, length};
ghost use Rattle.wire.specs.Output.{Writes};
ghost use Rattle.capture_lines.specs.Lines.{LaysLine, session_line};
ghost use Rattle.missing_ranges.specs.Edges.{range, ranges_of, most_ranges};
ghost use Rattle.missing_ranges.specs.Notes.{lent, is_usable, ranges_in};
ghost use Rattle.missing_text.specs.Text.{range_text, ranges_text, list_text, room};

use missing_ranges::ranges::Missing;
use wire::kinds::{ByteOffset, SESSION_SIZE};
use wire::refusal::Refusal;

// A range from one edge to just below the next, as its two lines.
fn put_range(out: &mut [u8], at: ByteOffset, from: u64, edge: u64) -> ByteOffset
    requires { at.0 + 50 ≤ length out.old }
    ensures { LaysLine result.0 out.old out.new at.0
        (range_text (range from (edge - 1))) 50 }
{
    let a = capture_lines::behind(at, capture_lines::put_number_line(out, at, b"from=", from));
    let to = edge.saturating_sub(1);
    capture_lines::behind(a, capture_lines::put_number_line(out, a, b"to=", to))
}

// The ranges that edges bound below a number.
fn put_ranges(out: &mut [u8], at: ByteOffset, edges: &[u64], top: u64) -> ByteOffset
    requires { at.0 + 25 * length edges.now + 50 ≤ length out.old }
    ensures { LaysLine result.0 out.old out.new at.0
        (ranges_text (ranges_of top edges.now)) (25 * length edges.now + 25) }
{
    let mut rest = edges;
    let mut place = at;
    while let [from, edge, behind @ ..] = rest {
        place = put_range(out, place, *from, *edge);
        rest = behind;
    }
    match rest {
        [from] if *from < top => put_range(out, place, *from, top),
        _ => place,
    }
}

// The line with the name of the session, at the front, and the ranges behind it.
fn put_named(out: &mut [u8], name: [u8; SESSION_SIZE], edges: &[u64], top: u64) -> ByteOffset
    requires { (room ≤ length out.old) × (length edges.now ≤ most_ranges + most_ranges + 1) }
    ensures { LaysLine result.0 out.old out.new 0
        (session_line name ++ ranges_text (ranges_of top edges.now)) (19 + 50 * (most_ranges + 1)) }
{
    let a = capture_lines::behind(
        ByteOffset(0),
        capture_lines::put_session_line(out, ByteOffset(0), name),
    );
    put_ranges(out, a, edges, top)
}

// All ranges, with how many numbers they have.
pub(crate) fn put_list(
    out: &mut [u8],
    name: [u8; SESSION_SIZE],
    edges: &[u64],
    missing: Missing,
) -> Result<usize, Refusal>
    requires { (room ≤ length out.old) × (is_usable (lent missing edges.now) ≡ true) }
    ensures { Writes result out.old out.new 0 0
        (list_text name (ranges_in (lent missing edges.now))) }
{
    let k = missing.closed;
    let a = put_named(out, name, &edges[..k + k + 1], missing.highest.0);
    let total = missing.total(edges);
    let end = capture_lines::behind(
        a,
        capture_lines::put_number_line(out, a, b"missing=", total),
    );
    Ok(end.0)
}
