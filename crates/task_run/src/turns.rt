//! Where a task has gone on elsewhere than at the next place.
ghost use Rattle.std.specs.Prelude.{ℕ, ◌≤◌, All};

use cov_base::PlaceNo;

/// For each place, found by its number modulo 256, the number of the place that was last looked up and found behind it. It is but a
/// guess, for a branch mostly goes where it has gone.
pub(crate) type Turns = [u32; 256];

/// Nothing was looked up yet: `none` is the number of no place.
pub(crate) fn no_turns(none: u32) -> Turns
    ensures { All (λ t. t ≤ none) result }
{
    [none; 256]
}

/// What is guessed behind the place.
#[inline(always)]
pub(crate) fn guess(turns: &Turns, last: u32) -> u32
    ensures { (n : ℕ) → All (λ t. t ≤ n) turns.now → result ≤ n }
{
    turns[last as usize % 256]
}

/// Keeps where the task has gone on behind the place.
#[inline(always)]
pub(crate) fn keep(turns: &mut Turns, last: u32, to: PlaceNo)
    ensures { (n : ℕ) → All (λ t. t ≤ n) turns.old → to.0 ≤ n → All (λ t. t ≤ n) turns.new }
{
    turns[last as usize % 256] = to.0;
}
