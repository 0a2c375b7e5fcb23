// What a reader shows at a cursor, which may be any: `a` is the datagram, `n` the cursor's place, `m` how many are
// left.
use moldudp64_messages::cursor::Cursor;
use moldudp64_reader::Shown;
use vector_lines::narrow::low16;
use vector_lines::{parse, print};
use wire::kinds::{ByteOffset, MessageCount};
use wire::parts;

// Room for a datagram longer than the longest.
const MOST_BYTES: usize = 131072;

// Prints what is shown, with the bytes at the place that it tells, and the cursor of the next message.
fn told(rt: &impl Print, s: Shown, datagram: &[u8]) {
    let found = s.located;
    let next = s.next;
    print::number(rt, b"exists=", u64::from(found.exists));
    print::number(rt, b" offset=", found.offset.0 as u64);
    print::number(rt, b" length=", found.length as u64);
    print::text(rt, b" bytes=");
    print::bytes(rt, parts::part(datagram, found.offset, found.length));
    print::number(rt, b" left=", s.left.0 as u64);
    print::number(rt, b" next n=", next.at.0 as u64);
    print::number(rt, b" m=", next.left.0 as u64);
}

fn show(rt: &impl Print, fields: &[u8], datagram: &[u8]) {
    let from = Cursor {
        at: ByteOffset(parse::number(fields, b'n') as usize),
        left: MessageCount(low16(parse::number(fields, b'm'))),
    };
    told(rt, moldudp64_reader::show(from, datagram), datagram);
}

pub(crate) fn ask(rt: &impl Print, fields: &[u8]) {
    let mut room = [0u8; MOST_BYTES];
    let n = parse::bytes(fields, b'a', &mut room);
    show(rt, fields, &room[..n]);
}
