// The lines of a report.
#![tactic(auto, using(crate::proofs::Rules::reporting))]

ghost use Rattle.std.specs.Prelude.{◌+◌, ◌≤◌, length};
ghost use Rattle.wire.specs.Output.{Writes};
ghost use Rattle.capture_lines.specs.Lines.{LaysLine, number_line, session_line};
ghost use Rattle.capture_text.specs.Text.{room, ended_line, receiver_text, tally_text, report_text};

use capture_tally::report::Report;
use capture_tally::tally::Tally;
use receiver::receiver::Receiver;
use wire::kinds::{ByteOffset, SESSION_SIZE};
use wire::output;
use wire::refusal::Refusal;

// The bytes that are room enough for any report.
pub const ROOM: usize = 256;

// The line with the name of the session, at the front.
fn put_name(out: &mut [u8], name: [u8; SESSION_SIZE]) -> ByteOffset
    requires { room ≤ length out.old }
    ensures { LaysLine result.0 out.old out.new 0 (session_line name) 19 }
{
    capture_lines::behind(
        ByteOffset(0),
        capture_lines::put_session_line(out, ByteOffset(0), name),
    )
}

// A line with a number.
fn put_count(out: &mut [u8], at: ByteOffset, key: &[u8], n: u64) -> ByteOffset
    requires { at.0 + length key.now + 21 ≤ length out.old }
    ensures { LaysLine result.0 out.old out.new at.0
        (number_line key.now n) (length key.now + 21) }
{
    capture_lines::behind(at, capture_lines::put_number_line(out, at, key, n))
}

// The line that says whether the session has ended.
fn put_ended(out: &mut [u8], at: ByteOffset, ended: bool) -> Result<usize, Refusal>
    ensures { Writes result out.old out.new 0 at.0 (ended_line ended) }
{
    if ended {
        capture_lines::put_line(out, at, b"ended=", b"yes")
    } else {
        capture_lines::put_line(out, at, b"ended=", b"no")
    }
}

// The lines of the receiver, at the front.
fn put_receiver(out: &mut [u8], receiver: Receiver) -> ByteOffset
    requires { room ≤ length out.old }
    ensures { LaysLine result.0 out.old out.new 0 (receiver_text receiver) 60 }
{
    let a = put_name(out, receiver.session);
    let b = put_count(out, a, b"next=", receiver.next.0);
    capture_lines::behind(b, put_ended(out, b, receiver.ended))
}

// The lines of the counts.
fn put_tally(out: &mut [u8], at: ByteOffset, tally: Tally) -> ByteOffset
    requires { at.0 + 140 ≤ length out.old }
    ensures { LaysLine result.0 out.old out.new at.0 (tally_text tally) 140 }
{
    let a = put_count(out, at, b"delivered=", tally.delivered);
    let b = put_count(out, a, b"old=", tally.old);
    let c = put_count(out, b, b"quiet=", tally.quiet);
    let d = put_count(out, c, b"asked=", tally.asked);
    put_count(out, d, b"refused=", tally.refused)
}

// All lines, at the front.
fn put_report(out: &mut [u8], report: Report) -> ByteOffset
    requires { room ≤ length out.old }
    ensures { LaysLine result.0 out.old out.new 0 (report_text report) 200 }
{
    let a = put_receiver(out, report.receiver.base);
    put_tally(out, a, report.tally)
}

// Writes a report.
pub fn write_report(out: &mut [u8], report: Report) -> Result<usize, Refusal>
    ensures { Writes result out.old out.new 0 0 (report_text report) }
{
    let mut text = [0u8; ROOM];
    let size = put_report(&mut text, report).0;
    output::put_bytes(out, ByteOffset(0), &text[..size])
}
