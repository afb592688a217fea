// Rule 5: what a tick adds to the counts.
ghost use Rattle.std.specs.Prelude.{◌≡◌, ◌-◌};
ghost use Rattle.stepping.specs.Parts.{Countable, counted_by};

use rules::Tally;
use units::{Cycles, Speed};

// Rule 5: the counts with a tick's: what was granted, all of its speed but what is left, at the place of that, the rest idle, the jobs cut.
#[tactic(auto, unfolding(crate::specs::Parts::counted_by, rules::specs::State::count_at))]
pub(crate) fn count_tick(tally: Tally, place: usize, speed: Speed, left: Cycles, cut: u64) -> Tally
    requires { Countable tally place speed left cut }
    ensures { result ≡ counted_by tally place (speed.0 - left.0) left.0 cut }
{
    let mut counted = tally;
    counted.counts[place].0 += speed.0 - left.0;
    counted.idle.0 += left.0;
    counted.cut += cut;
    counted
}
