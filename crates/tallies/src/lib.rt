// The counts of a state against its ticks: t itself, late and cut, and the cycles that its top speed could have made.
#![tactic(auto)]

mod counts;

ghost use Rattle.std.specs.Prelude.{◌≡◌};
ghost use Rattle.tallies.specs.Tallies.{tally_right};

use rules::Tally;
use units::{Speed, Ticks};

// t at most 1,000,000,000, late and cut each at most 16 x t, counts and idle together at most t x top speed.
#[tactic(auto, unfolding(crate::specs::Tallies::tally_right, crate::specs::Tallies::counted_within))]
pub fn tally_right(done: Ticks, tally: &Tally, top: Speed) -> bool
    ensures { result ≡ tally_right done tally.now top }
{
    done.0 <= 1000000000
        && tally.late <= 16 * done.0
        && tally.cut <= 16 * done.0
        && counts::cycles_within(&tally.counts, tally.idle, units::cycles_in(top, done))
}
