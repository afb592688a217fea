// Whether a state is sound, and its load where it is. Every clause of document 01's soundness is tested once, for any numbers that the state may hold.
#![tactic(auto)]

mod sums;

ghost use Rattle.std.specs.Prelude.{◌≡◌};
ghost use Rattle.rules.specs.State.{state_from};
ghost use Rattle.soundness.specs.Survey.{survey_of};

use rules::{Jobs, Ladder, Tally, Tasks};
use units::{Cycles, Ticks};

// The sum of use x (H / P) of the state of these parts where it is sound, clause by clause; none where it is not.
// Stays: the parts of a state, lent, and not the state: the boundary has its jobs in bytes, and a whole state made of them takes a tick above its 4,096 bytes of stack.
pub fn survey(
    done: Ticks,
    tasks: &Tasks,
    jobs: &Jobs,
    ladder: &Ladder,
    tally: &Tally,
) -> Option<Cycles>
    ensures { result ≡ survey_of (state_from done tasks.now jobs.now ladder.now tally.now) }
{
    let sums = sums::task_sums(tasks, jobs)?;
    let top = rungs::top_of(ladder);
    if rungs::ladder_right(ladder, tally)
        && tallies::tally_right(done, tally, top)
        && sums::great_right(sums)
        && units::carries(top, tasks.great, sums.full)
    {
        Some(sums.load)
    } else {
        None
    }
}
