// A capture as events, one by one, and the turns of a program that reads one over a lent buffer, whatever it makes of
// them.
#![tactic(auto, using(crate::proofs::Rules::turning))]

pub mod place;

ghost use Rattle.std.specs.Prelude.{◌≡◌, ◌+◌, min};
ghost use Rattle.capture_events.specs.Turns.{TurnPromises};

// How many bytes stand in a buffer of some size: those kept at its front and those that came behind them.
pub fn there(size: usize, have: usize, got: usize) -> usize
    ensures value { result ≡ min size (have + got) }
    ensures promises { TurnPromises }
{
    size.min(have.saturating_add(got))
}
