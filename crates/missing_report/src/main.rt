// The checking program: a capture on standard input, what is missing from it on standard output. The library says what
// that means, what a turn over the buffer keeps and when the last one was made; the program reads, turns and prints.
#![tactic(auto)]

ghost use Rattle.std.specs.Prelude.{◌≡◌, true, ◌<◌, ◌≤◌, length};
ghost use Rattle.capture_events.specs.Events.{is_over_at};
ghost use Rattle.capture_events.specs.Next.{at_of};
ghost use Rattle.capture_events.specs.Turns.{most_kept};
ghost use Rattle.missing_ranges.specs.Notes as ranges;
ghost use Rattle.missing_text.specs.Text.{room};

use capture_records::buffer;
use missing_capture::reading::Reading;
use missing_capture::turning::Turning;
use missing_ranges::ranges::ROOM;
use std::io::Read;

// Reads once behind the bytes that are kept, where there is room for one more at the least, and answers how many came:
// none where the input ends or the read fails.
fn fill(input: &mut impl Read, buf: &mut [u8], have: usize) -> usize
    requires { have < length buf.old }
{
    buffer::fill(input, buf, have)
}

// Turns until it is over, in a buffer that has room behind whatever is kept. A proved loop has to end, and nothing says
// that the input does: there are more turns than any run takes. The program of reports turns likewise, as other memory
// is lent to its turns.
fn read_all(input: &mut impl Read, edges: &mut [u64], buf: &mut [u8]) -> Reading
    requires { most_kept < length buf.old }
    ensures { is_over_at (at_of result.place) ≡ true }
{
    let mut state = Turning::new();
    for _ in 0..u64::MAX {
        let got = fill(input, buf, state.have);
        state = state.turn(edges, buf, got);
        if state.is_over() {
            return state.reading;
        }
    }
    state.turn(edges, buf, 0).reading
}

// Prints what a capture came to, in a buffer that has room for any text. What cannot be written is let go.
fn print(rt: &impl Print, reading: Reading, edges: &[u64], buf: &mut [u8])
    requires { room ≤ length buf.old }
{
    let size = reading.printed(edges, buf);
    let _ = rt.write_all(&buf[..size]);
}

// Reads and prints, in the memory that is lent: words enough for the edges, and the buffer.
fn run(rt: &impl Print, input: &mut impl Read, edges: &mut [u64], buf: &mut [u8])
    requires room_in_bounds { ranges.room ≤ length edges.old }
    requires room_in_bounds_2 { room ≤ length buf.old }
{
    let reading = read_all(input, edges, buf);
    print(rt, reading, edges, buf);
}

fn main(rt: HostRuntime) {
    let mut input = rt.stdin();
    let mut edges = [0u64; ROOM];
    let mut space = [0u8; 262144];
    run(&rt, &mut input, &mut edges, &mut space);
}
