// Lines of text laid into a lent output, each at a place: where one has no room it is refused and nothing is laid.
#![tactic(auto, using(crate::proofs::Rules::lines))]

ghost use Rattle.std.specs.Prelude.{◌≡◌};
ghost use Rattle.wire.specs.Output.{Writes};
ghost use Rattle.capture_settings.specs.Statements.{line};
ghost use Rattle.capture_lines.specs.Lines.{number_line, session_line, refused_line, behind_of};

use wire::kinds::{ByteOffset, SESSION_SIZE};
use wire::output;
use wire::refusal::Refusal;

// Lays a line: its key, its value and a line feed.
pub fn put_line(out: &mut [u8], at: ByteOffset, key: &[u8], value: &[u8]) -> Result<usize, Refusal>
    ensures { Writes result out.old out.new 0 at.0
        (line key.now value.now) }
{
    let size = key.len() + value.len() + 1;
    output::room(out.len(), at, size)?;
    let value_at = at.0 + key.len();
    output::lay(out, at, key);
    output::lay(out, ByteOffset(value_at), value);
    output::lay(out, ByteOffset(value_at + value.len()), b"\n");
    Ok(size)
}

// Lays a line with a number.
pub fn put_number_line(out: &mut [u8], at: ByteOffset, key: &[u8], n: u64) -> Result<usize, Refusal>
    ensures { Writes result out.old out.new 0 at.0 (number_line key.now n) }
{
    let mut text = [0u8; 20];
    let size = io::decimal(n, &mut text);
    put_line(out, at, key, &text[..size])
}

// Lays the line with the name of the session.
pub fn put_session_line(
    out: &mut [u8],
    at: ByteOffset,
    name: [u8; SESSION_SIZE],
) -> Result<usize, Refusal>
    ensures { Writes result out.old out.new 0 at.0 (session_line name) }
{
    put_line(out, at, b"session=", &name)
}

// Writes that what a key names is refused, and nothing else.
pub fn put_refused(out: &mut [u8], key: &[u8]) -> Result<usize, Refusal>
    ensures { Writes result out.old out.new 0 0 (refused_line key.now) }
{
    put_line(out, ByteOffset(0), key, b"refused")
}

// The place behind what was written at one; a refusal wrote nothing.
pub fn behind(at: ByteOffset, written: Result<usize, Refusal>) -> ByteOffset
    ensures { result.0 ≡ behind_of at.0 written }
{
    match written {
        Ok(size) => ByteOffset(at.0.saturating_add(size)),
        Err(_) => at,
    }
}
