// The header that every packet starts with, written in its three parts.
#![tactic(auto, using(crate::proofs::Rules::headers))]

ghost use Rattle.std.specs.Prelude.{◌≡◌, ◌≤◌, length};
ghost use Rattle.wire.specs.Output.{put};
ghost use Rattle.moldudp64.specs.Header.{header_size, header};

use moldudp64::header as read;
use wire::kinds::{MessageCount, SESSION_SIZE, SequenceNumber};
use wire::output;

// Writes a header at the front of an output that has room for it.
pub(crate) fn put_header(
    out: &mut [u8],
    session: [u8; SESSION_SIZE],
    first: SequenceNumber,
    count: MessageCount,
)
    requires { header_size ≤ length out.old }
    ensures { out.new ≡ put out.old 0 (header session first.0 count.0) }
{
    output::lay(out, read::SESSION_AT, &session);
    output::lay64(out, read::NUMBER_AT, first.0);
    output::lay16(out, read::COUNT_AT, count.0);
}
