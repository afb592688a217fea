// One tick of a state: what it changes, and its grants. Rules 4 and 5 in their order, and numbers 9 to 13.
#![tactic(auto)]

mod counts;
mod releasing;
mod rows;

ghost use Rattle.std.specs.Prelude.{◌≡◌, ◌<◌, length, get_or};
ghost use Rattle.units.specs.Units.{speed};
ghost use Rattle.rules.specs.Limits.{most_speeds};
ghost use Rattle.rules.specs.State.{state_from};
ghost use Rattle.rules.specs.Calls.{grants_of};
ghost use Rattle.stepping.specs.Stepped.{stepped_by, stepped_of};
ghost use Rattle.stepping.specs.Parts.{Passed};

use refusals::Refusal;
use rules::{Jobs, Ladder, Tally, Tasks};
use units::{Speed, Ticks};

// All that a tick can change of a state.
#[derive(Clone, Copy, Debug, PartialEq, Eq)]
pub struct Stepped {
    pub done: Ticks,
    pub jobs: Jobs,
    pub tally: Tally,
}

// A tick of the state of these parts by a report, each task's cycles written to the grants list; refused (9 to 13), the list as it was.
// Stays: the parts, lent, and not the state, as `soundness::survey` has them.
pub fn step(
    done: Ticks,
    tasks: &Tasks,
    jobs: &Jobs,
    ladder: &Ladder,
    tally: &Tally,
    report: &[u64],
    grants: &mut [u64],
) -> Result<Stepped, Refusal>
    ensures { (stepped_by (state_from done tasks.now jobs.now ladder.now tally.now) result ≡ stepped_of (state_from done tasks.now jobs.now ladder.now tally.now) report.now (length grants.old))
        × (grants.new ≡ grants_of (state_from done tasks.now jobs.now ladder.now tally.now) report.now grants.old) }
{
    let load = rows::load(done, tasks, jobs, ladder, tally, report.len(), grants.len())?;
    let found = choosing::lowest_place(*ladder, tasks.great, load);
    let place = rows::place(found)?;
    step_at(done, tasks, jobs, ladder, tally, place, report, grants)
}

// A tick from row 13 on, at the place of its speed: the report settled as rule 4 says, what it changes as rule 5 says. A function of its own in the machine code too, so that its arrays are not on the stack while the state is tested.
#[inline(never)]
fn step_at(
    done: Ticks,
    tasks: &Tasks,
    jobs: &Jobs,
    ladder: &Ladder,
    tally: &Tally,
    place: usize,
    report: &[u64],
    grants: &mut [u64],
) -> Result<Stepped, Refusal>
    requires { Passed (state_from done tasks.now jobs.now ladder.now tally.now) place report.now (length grants.old) }
    ensures { (stepped_by (state_from done tasks.now jobs.now ladder.now tally.now) result ≡ stepped_of (state_from done tasks.now jobs.now ladder.now tally.now) report.now (length grants.old))
        × (grants.new ≡ grants_of (state_from done tasks.now jobs.now ladder.now tally.now) report.now grants.old) }
{
    let speed = speed_at(ladder, place);
    let dues = choosing::dues_of(done, tasks);
    let settled = settlement::settle(tasks, *jobs, &dues, speed, report, grants);
    let settled = settled.ok_or(Refusal::Entry)?;
    Ok(releasing::after(done, tasks, tally, place, speed, &dues, &settled))
}

// The speed at a place.
fn speed_at(ladder: &Ladder, place: usize) -> Speed
    requires { place < most_speeds }
    ensures { result ≡ get_or ladder.now.speeds place (speed 0) }
{
    ladder.speeds[place]
}
