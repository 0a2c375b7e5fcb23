// The missing ranges read out: how many, each by its place, and how many numbers they have.
#![tactic(auto, using(crate::proofs::Rules::counts, crate::proofs::Rules::lists, crate::proofs::Rules::totals))]

ghost use Rattle.std.specs.Prelude.{◌≡◌, ◌+◌, ◌-◌, length};
ghost use Rattle.missing_ranges.specs.Edges.{ranges_of, total_from};
ghost use Rattle.missing_ranges.specs.Notes.{lent, ranges_in, total_in};
ghost use Rattle.missing_ranges.specs.Listing.{IsRange};

use crate::ranges::Missing;
use wire::kinds::SequenceNumber;

// A range, both numbers missing themselves.
#[derive(Clone, Copy)]
pub struct Listed {
    pub from: SequenceNumber,
    pub to: SequenceNumber,
}

// How many numbers lie from one edge to just below the next.
fn size(from: u64, edge: u64) -> u64
    ensures { result ≡ edge - 1 + 1 - from }
{
    edge.max(1).saturating_sub(from)
}

// How many numbers the ranges have that edges bound below a number.
fn total_of(edges: &[u64], top: u64) -> u64
    ensures { result ≡ total_from 0 (ranges_of top edges.now) }
{
    let mut rest = edges;
    let mut n: u64 = 0;
    while let [from, edge, behind @ ..] = rest {
        n = n.saturating_add(size(*from, *edge));
        rest = behind;
    }
    match rest {
        [from] if *from < top => n.saturating_add(size(*from, top)),
        _ => n,
    }
}

impl Missing {
    // How many ranges are missing.
    pub fn count(self, edges: &[u64]) -> usize
        ensures { result ≡ length (ranges_in (lent self edges.now)) }
    {
        if !self.is_usable(edges) {
            return 0;
        }
        let k = self.closed;
        if edges[k + k] < self.highest.0 {
            return k + 1;
        }
        k
    }

    // How many numbers are missing.
    pub fn total(self, edges: &[u64]) -> u64
        ensures { result ≡ total_in (lent self edges.now) }
    {
        if !self.is_usable(edges) {
            return 0;
        }
        let n = self.closed + self.closed + 1;
        total_of(&edges[..n], self.highest.0)
    }

    // The range at a place: the last one may end just below the highest next number.
    pub fn range(self, edges: &[u64], place: usize) -> Option<Listed>
        ensures { IsRange result (lent self edges.now) place }
    {
        if self.count(edges) <= place {
            return None;
        }
        let from = edges[place + place];
        let edge = if place < self.closed {
            edges[place + place + 1]
        } else {
            self.highest.0
        };
        Some(Listed {
            from: SequenceNumber(from),
            to: SequenceNumber(edge.saturating_sub(1)),
        })
    }
}
