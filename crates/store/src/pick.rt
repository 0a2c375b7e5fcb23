// The messages that an answer takes, found while all lengths are held against the joined data.
#![tactic(auto, using(crate::proofs::Rules::picks))]

ghost use Rattle.std.specs.Prelude.{◌≡◌, ◌+◌, ◌≤◌, length, take, drop};
ghost use Rattle.moldudp64_writer.specs.Writer.{left_after};
ghost use Rattle.store.specs.Steps.{TakesMost, pick_of};

use moldudp64_writer::lengths::left_after;
use packing::fit::{Fit, most_that_fit};

// Where the data of the messages taken begins, how many they are and how many bytes they have.
#[derive(Clone, Copy)]
pub(crate) struct Picked {
    pub from: usize,
    pub count: usize,
    pub bytes: usize,
}

// What is left of so many bytes after the messages before a place.
fn left_before(lengths: &[u16], place: usize, bytes: usize) -> Option<usize>
    requires { place ≤ length lengths.now }
    ensures { result ≡ left_after (take place lengths.now) bytes }
{
    left_after(&lengths[..place], bytes)
}

// What is left of so many bytes after the messages from a place on.
fn left_behind(lengths: &[u16], place: usize, bytes: usize) -> Option<usize>
    requires { place ≤ length lengths.now }
    ensures { result ≡ left_after (drop place lengths.now) bytes }
{
    left_after(&lengths[place..], bytes)
}

// The most messages that fit, of so many from a place on.
fn fit_from(lengths: &[u16], place: usize, count: usize, room: usize) -> Fit
    requires { place + count ≤ length lengths.now }
    ensures { TakesMost result lengths.now place count room }
{
    let end = place + count;
    most_that_fit(&lengths[place..end], room)
}

// Takes the most that fit of so many messages from a place on, where all lengths add up to the data. The lengths before them, theirs and those behind them
// are each gone through once, so that a store of a million messages is held against its data in one pass.
pub(crate) fn pick(
    lengths: &[u16],
    joined: usize,
    place: usize,
    count: usize,
    room: usize,
) -> Option<Picked>
    requires { place + count ≤ length lengths.now }
    ensures { result ≡ pick_of lengths.now joined place count room }
{
    let left = left_before(lengths, place, joined)?;
    let fit = fit_from(lengths, place, count, room);
    let behind = left.checked_sub(fit.bytes)?;
    if left_behind(lengths, place + fit.count, behind) != Some(0) {
        return None;
    }
    Some(Picked {
        from: joined - left,
        count: fit.count,
        bytes: fit.bytes,
    })
}
