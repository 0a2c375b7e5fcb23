// The capture program: a capture on standard input, its report on standard output. The library says what it means, what
// a turn over the buffer keeps and when the last one was made; the program reads, turns and prints.
#![tactic(auto)]

ghost use Rattle.std.specs.Prelude.{◌≡◌, true, ◌<◌, ◌≤◌, length};
ghost use Rattle.capture_events.specs.Turns.{most_kept};
ghost use Rattle.capture_text.specs.Text.{room};
ghost use Rattle.capture.specs.Reading.{is_over};

use capture::reading::{Printed, Reading};
use capture::turning::Turning;
use capture_records::buffer;
use capture_text::report_text::ROOM;
use early_holding::holding::{LENGTH_BYTES, SLOT_BYTES};
use std::io::Read;

// Reads once behind the bytes that are kept, where there is room for one more at the least, and answers how many came:
// none where the input ends or the read fails.
fn fill(input: &mut impl Read, buf: &mut [u8], have: usize) -> usize
    requires { have < length buf.old }
{
    buffer::fill(input, buf, have)
}

// Turns until it is over, in a buffer that has room behind whatever is kept. A proved loop has to end, and nothing says
// that the input does: there are more turns than any run takes. The program of what is missing turns likewise, as other
// memory is lent to its turns.
fn read_all(input: &mut impl Read, lengths: &mut [u8], slots: &mut [u8], buf: &mut [u8]) -> Reading
    requires { most_kept < length buf.old }
    ensures { is_over result.stage ≡ true }
{
    let mut state = Turning::new();
    for _ in 0..u64::MAX {
        let got = fill(input, buf, state.have);
        state = state.turn(lengths, slots, buf, got);
        if state.is_over() {
            return state.reading;
        }
    }
    state.turn(lengths, slots, buf, 0).reading
}

// Prints the first bytes of a text. What cannot be written is let go.
fn print_front(rt: &impl Print, text: [u8; ROOM], size: usize)
    requires { size ≤ room }
{
    let _ = rt.write_all(&text[..size]);
}

// Prints what a capture came to.
fn print(rt: &impl Print, reading: Reading) {
    let Printed { text, size } = reading.printed();
    print_front(rt, text, size);
}

// Reads and prints, in the memory that is lent: the receiver's lengths and slots, and the buffer.
fn run(rt: &impl Print, input: &mut impl Read, lengths: &mut [u8], slots: &mut [u8], buf: &mut [u8])
    requires { most_kept < length buf.old }
{
    print(rt, read_all(input, lengths, slots, buf));
}

fn main(rt: HostRuntime) {
    let mut input = rt.stdin();
    let mut lengths = [0u8; LENGTH_BYTES];
    let mut slots = [0u8; SLOT_BYTES];
    let mut space = [0u8; 262144];
    run(&rt, &mut input, &mut lengths, &mut slots, &mut space);
}
