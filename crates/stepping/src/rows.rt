// The refusals of a tick before it is settled.
ghost use Rattle.std.specs.Prelude.{◌≡◌};
ghost use Rattle.rules.specs.State.{state_from};
ghost use Rattle.stepping.specs.Parts.{row_load, row_place};

use refusals::Refusal;
use rules::{Jobs, Ladder, Tally, Tasks};
use units::{Cycles, Ticks};

// The load of a state that is ticked with so many places in both lists; or the smallest of 9 to 11 that applies.
#[tactic(auto, unfolding(crate::specs::Parts::row_load, soundness::specs::Survey::survey_of, rules::specs::Numbers::all_done))]
pub(crate) fn load(
    done: Ticks,
    tasks: &Tasks,
    jobs: &Jobs,
    ladder: &Ladder,
    tally: &Tally,
    reported: usize,
    granted: usize,
) -> Result<Cycles, Refusal>
    ensures { result ≡ row_load (state_from done tasks.now jobs.now ladder.now tally.now) reported granted }
{
    let load = soundness::survey(done, tasks, jobs, ladder, tally);
    let load = load.ok_or(Refusal::Unsound)?;
    if 1000000000 <= done.0 {
        return Err(Refusal::RunDone);
    }
    if reported != tasks.count {
        return Err(Refusal::Length);
    }
    if granted != tasks.count {
        return Err(Refusal::Length);
    }
    Ok(load)
}

// The place of the lowest speed that carries the load; or 12, where none does.
#[tactic(auto, unfolding(crate::specs::Parts::row_place))]
pub(crate) fn place(found: Option<usize>) -> Result<usize, Refusal>
    ensures { result ≡ row_place found }
{
    found.ok_or(Refusal::NoSpeed)
}
