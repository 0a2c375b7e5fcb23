// Runs recorded vectors through what no exported function reaches: a reader over a datagram, and the lookup and the
// server's step over account records. `vector_lines` tells the form of a vector. A caller of a function over a `Reader`
// or over `&[Account]` needed a proof by hand with an older kit: the plain functions are called that go through these.
#![tactic(auto)]

ghost use Rattle.std.specs.Prelude.{◌≤◌, length};

mod lookups;
mod shows;
mod steps;

use std::io::Read;
use vector_lines::answer::answer_all;
use vector_lines::print;

// Room for all vectors. A longer text is cut, and what is printed is not what is stored.
const MOST_TEXT: usize = 262144;

// `tools/vectors/reader_and_accounts.py` has the same numbers.
fn ask(rt: &impl Print, function: u64, fields: &[u8]) {
    match function {
        0 => shows::ask(rt, fields),
        1 => lookups::ask(rt, fields),
        2 => steps::ask(rt, fields),
        _ => print::text(rt, b"no function"),
    }
}

// Reads until the room is full, the input ends or a read fails, and says how many bytes stand at the front.
fn read_full(input: &mut impl Read, room: &mut [u8]) -> usize
    ensures { result ≤ length room.old }
{
    let mut have: usize = 0;
    while have < room.len() {
        let got = input.read(&mut room[have..]).unwrap_or(0);
        if got == 0 {
            return have;
        }
        have += got;
    }
    have
}

fn answer_input(rt: &impl Print, input: &mut impl Read, room: &mut [u8]) {
    let n = read_full(input, room);
    answer_all(
        rt,
        &room[..n],
        |rt, function, fields| ask(rt, function, fields),
    );
}

// The room is lent whole, so that no other proof meets its size.
fn main(rt: HostRuntime) {
    let mut input = rt.stdin();
    let mut room = [0u8; MOST_TEXT];
    answer_input(&rt, &mut input, &mut room);
}
