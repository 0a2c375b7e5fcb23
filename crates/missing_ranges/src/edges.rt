// Edges in lent words: the first n, rising where they are what `ranges` keeps.
#![tactic(auto, using(crate::proofs::Rules::middles, crate::proofs::Rules::places, crate::proofs::Rules::replaces))]

ghost use Rattle.std.specs.Prelude.{◌≡◌, ◌+◌, ◌≤◌, length, take};
ghost use Rattle.wire.specs.Output.{put};
ghost use Rattle.missing_ranges.specs.Edges.{is_odd, place_past, place_of, middle, replaced};
ghost use Rattle.missing_ranges.specs.Notes.{Fitting};

pub(crate) fn is_odd(n: usize) -> bool
    ensures { result ≡ is_odd n }
{
    n % 2 == 1
}

// The place after the last of the first n edges that is e or lies below it, looked for by halves. `note` takes words in
// any order, and what it promises of those that don't rise is what these halves give: `partition_point` says nothing
// there.
pub(crate) fn place_past(edges: &[u64], n: usize, e: u64) -> usize
    requires { n ≤ length edges.now }
    ensures { result ≡ place_past e edges.now n }
{
    let mut low: usize = 0;
    let mut high = n;
    while low < high {
        let middle = low + (high - low) / 2;
        if edges[middle] <= e {
            low = middle + 1;
        } else {
            high = middle;
        }
    }
    low
}

// The place after the last of the first n edges that lies below f.
pub(crate) fn place(edges: &[u64], n: usize, f: u64) -> usize
    requires { n ≤ length edges.now }
    ensures { result ≡ place_of f edges.now n }
{
    if f == 0 {
        return 0;
    }
    place_past(edges, n, f - 1)
}

// Lays the edges that stand between two places, and answers the place after them.
pub(crate) fn lay_middle(edges: &mut [u64], i: usize, j: usize, f: u64, e: u64) -> usize
    requires { i + length (middle i j f e) ≤ length edges.old }
    ensures value { result ≡ i + length (middle i j f e) }
    ensures laid { edges.new ≡ put edges.old i (middle i j f e) }
{
    if is_odd(i) {
        edges[i] = f;
        if is_odd(j) {
            edges[i + 1] = e;
            return i + 2;
        }
        return i + 1;
    }
    if is_odd(j) {
        edges[i] = e;
        return i + 1;
    }
    i
}

// Puts the edges of the numbers from f to just below e in place of those from place i to just below j, where the first
// n are edges. What stands behind them moves where it has to.
pub(crate) fn replace(edges: &mut [u64], n: usize, i: usize, j: usize, f: u64, e: u64)
    requires { Fitting edges.old n i j f e }
    ensures { edges.new
        ≡ put edges.old 0 (replaced i j f e (take n edges.old)) }
{
    if i == j {
        if is_odd(i) {
            edges.copy_within(j..n, i + 2);
            lay_middle(edges, i, j, f, e);
        }
        return;
    }
    let at = lay_middle(edges, i, j, f, e);
    if at != j {
        edges.copy_within(j..n, at);
    }
}
