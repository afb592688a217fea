// A tick of a plain state.
ghost use Rattle.std.specs.Prelude.{◌≡◌, length};
ghost use Rattle.piszczalin.specs.Calls.{plain_tick, plain_grants};
ghost use Rattle.piszczalin.specs.Parts.{number_by, plain_after, plain_answer};

use crate::{PlainState, marks};
use refusals::Refusal;
use stepping::Stepped;

// A tick of a plain state by a report, in place, each task's cycles written to the grants list; or 9 to 13, and both as they were.
pub(crate) fn step(
    state: &mut PlainState,
    report: &[u64],
    grants: &mut [u64],
) -> Result<(), Refusal>
    ensures { (plain_answer (number_by result) state.new ≡ plain_tick state.old report.now (length grants.old))
        × (grants.new ≡ plain_grants state.old report.now grants.old) }
{
    if !marks::good(state.jobs.over) {
        return Err(Refusal::Unsound);
    }
    let jobs = marks::jobs_of(state.jobs);
    match &stepping::step(
        state.done,
        &state.tasks,
        &jobs,
        &state.ladder,
        &state.tally,
        report,
        grants,
    ) {
        Ok(step) => {
            change(state, step);
            Ok(())
        }
        Err(refusal) => Err(*refusal),
    }
}

// A plain state with what a tick changed.
fn change(state: &mut PlainState, step: &Stepped)
    ensures { state.new ≡ plain_after state.old step.now }
{
    state.done = step.done;
    state.jobs.run = step.jobs.run;
    state.jobs.over = marks::marks_of(step.jobs.over);
    state.tally = step.tally;
}
