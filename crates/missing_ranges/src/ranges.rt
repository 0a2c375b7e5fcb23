// The missing ranges, from one datagram's numbers to the next.
#![tactic(auto, using(crate::proofs::Rules::ranging))]

ghost use Rattle.std.specs.Prelude.{true, ◌≡◌, ◌+◌, ◌-◌, ◌%◌, ◌≤◌, length};
ghost use Rattle.missing_ranges.specs.Notes.{missing, lent, is_usable, room, start_in, note_of};
ghost use Rattle.missing_ranges.specs.Notes.{too_many, last_after, Ready, Plans};
ghost use Rattle.missing_ranges.specs.Promises.{MissingPromises};

use crate::edges;
use wire::kinds::SequenceNumber;

// What is known of a session's numbers. The edges of its missing ranges stand in lent words.
#[derive(Clone, Copy)]
pub struct Missing {
    // Nothing is noted: more ranges were needed than are kept or than the lent words hold, or it never started. It is
    // no Result: `note_of` promises what a refused state keeps beside it, and a host's bytes hold that.
    pub refused: bool,
    // The ranges that have both edges.
    pub closed: usize,
    // The highest next number so far, at least the starting number.
    pub highest: SequenceNumber,
}

// The most missing ranges that are kept.
pub const MOST_RANGES: usize = 4096;

// The words that are room enough: two edges for a range, and one more.
pub const ROOM: usize = MOST_RANGES + MOST_RANGES + 1;

// Whether k ranges with both edges, and one more where the last edge lies below top, are too many.
fn too_many(k: usize, last: u64, top: u64) -> bool
    ensures { result ≡ too_many k last top }
{
    if last < top {
        MOST_RANGES <= k
    } else {
        MOST_RANGES < k
    }
}

// The last edge once e is laid at place j of n edges.
fn last_after(edges: &[u64], n: usize, j: usize, e: u64) -> u64
    requires { n ≤ length edges.now }
    ensures { result ≡ last_after edges.now n j e }
{
    if j < n { edges[n - 1] } else { e }
}

// How many edges there are once those of new numbers stand from place i to j of n.
fn size_after(n: usize, i: usize, j: usize) -> usize
    requires { (i ≤ j) × (j ≤ n) × (n ≤ room) }
    ensures { result ≡ i + i % 2 + j % 2 + (n - j) }
{
    i + i % 2 + j % 2 + (n - j)
}

// Where the edges of new numbers stand, how many there are then, and the last.
#[derive(Clone, Copy)]
struct Plan {
    i: usize,
    j: usize,
    size: usize,
    last: u64,
}

fn plan_for(edges: &[u64], n: usize, f: u64, e: u64) -> Plan
    requires { (n ≤ length edges.now) × (n ≤ room) }
    ensures { Plans result edges.now n f e }
{
    let j = edges::place_past(edges, n, e);
    let i = edges::place(edges, j, f);
    Plan {
        i,
        j,
        size: size_after(n, i, j),
        last: last_after(edges, n, j, e),
    }
}

impl Missing {
    // Nothing noted yet: what is missing begins at a number. Without a word for it, it is refused.
    pub fn start(edges: &mut [u64], next: SequenceNumber) -> Missing
        ensures edges_after { lent result edges.new ≡ start_in edges.old next.0 }
        ensures promises { MissingPromises }
    {
        let refused = edges.is_empty();
        if !refused {
            edges[0] = next.0;
        }
        Missing {
            refused,
            closed: 0,
            highest: next,
        }
    }

    // Whether it isn't refused, and the lent words hold its edges.
    pub fn is_usable(self, edges: &[u64]) -> bool
        ensures { result ≡ is_usable (lent self edges.now) }
    {
        let k = self.closed;
        !self.refused && k <= MOST_RANGES && k + k + 1 <= edges.len()
    }

    // More ranges than are kept.
    fn refuse(self) -> Missing
        ensures { result ≡ missing true self.closed self.highest.0 }
    {
        Missing {
            refused: true,
            ..self
        }
    }

    // Notes numbers that are carried: top is the highest next number then.
    fn take_out(self, edges: &mut [u64], f: u64, e: u64, top: u64) -> Missing
        requires { Ready (lent self edges.old) f e top }
        ensures { lent result edges.new ≡ note_of (lent self edges.old) f e }
    {
        let k = self.closed;
        let n = k + k + 1;
        let p = plan_for(edges, n, f, e);
        let size = p.size;
        if edges.len() < size || too_many(size / 2, p.last, top) {
            return self.refuse();
        }
        edges::replace(edges, n, p.i, p.j, f, e);
        Missing {
            refused: false,
            closed: size / 2,
            highest: SequenceNumber(top),
        }
    }

    // Notes that the numbers from first to just below next are carried, and that next is stated: none is carried where
    // next isn't above first. Where more ranges would be missing than are kept, or the lent words don't hold their
    // edges, it is refused, and no edge changes.
    pub fn note(self, edges: &mut [u64], first: SequenceNumber, next: SequenceNumber) -> Missing
        ensures { lent result edges.new ≡ note_of (lent self edges.old) first.0 next.0 }
    {
        if !self.is_usable(edges) {
            return self.refuse();
        }
        let f = first.0;
        let e = next.0;
        let top = self.highest.0.max(e);
        if f < e {
            return self.take_out(edges, f, e, top);
        }
        let k = self.closed;
        let n = k + k + 1;
        if too_many(k, edges[n - 1], top) {
            return self.refuse();
        }
        Missing {
            refused: false,
            closed: k,
            highest: SequenceNumber(top),
        }
    }
}
