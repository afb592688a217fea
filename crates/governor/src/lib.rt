// The speed governor's public calls. Each answers for every input, refusals too, as document 01's rules say; specs/ of `rules` has those.
#![tactic(auto)]

mod counts;

ghost use Rattle.std.specs.Prelude.{◌≡◌, length};
ghost use Rattle.rules.specs.Calls.{start_of, started_by, now_of, told_by, tick_of, ticked_by, grants_of, energy_of, used_by};

use refusals::Refusal;
use rules::{Advice, State};
use stepping::Stepped;

// start: from lent lists of periods, reserves, speeds and volts to the fresh state, or to the smallest of 1 to 8 that applies.
pub fn start(
    periods: &[u64],
    reserves: &[u64],
    speeds: &[u64],
    volts: &[u64],
) -> Result<State, Refusal>
    ensures { started_by result ≡ start_of periods.now reserves.now speeds.now volts.now }
{
    starting::start(periods, reserves, speeds, volts)
}

// now: from any state to the choice and the lowest speed that carries the load; or 9, 10 or 12.
pub fn now(state: State) -> Result<Advice, Refusal>
    ensures { told_by result ≡ now_of state }
{
    let load = soundness::survey(
        state.done,
        &state.tasks,
        &state.jobs,
        &state.ladder,
        &state.tally,
    );
    let load = load.ok_or(Refusal::Unsound)?;
    if state.done.0 >= 1000000000 {
        return Err(Refusal::RunDone);
    }
    let place = choosing::lowest_place(state.ladder, state.tasks.great, load);
    let place = place.ok_or(Refusal::NoSpeed)?;
    let dues = choosing::dues_of(state.done, &state.tasks);
    Ok(Advice {
        choice: choosing::earliest(&dues, &state.jobs, state.tasks.count),
        speed: state.ladder.speeds[place],
    })
}

// tick: from any state and a report to the next state, each task's cycles written to the grants list; or 9 to 13, and the list as it was.
pub fn tick(state: State, report: &[u64], grants: &mut [u64]) -> Result<State, Refusal>
    ensures { (ticked_by state result ≡ tick_of state report.now (length grants.old))
        × (grants.new ≡ grants_of state report.now grants.old) }
{
    let Stepped { done, jobs, tally } = stepping::step(
        state.done,
        &state.tasks,
        &state.jobs,
        &state.ladder,
        &state.tally,
        report,
        grants,
    )?;
    Ok(State {
        done,
        jobs,
        tally,
        ..state
    })
}

// energy: from any state to the sum over speeds of count x volts x volts; or 9.
pub fn energy(state: State) -> Result<u64, Refusal>
    ensures { used_by result ≡ energy_of state }
{
    let load = soundness::survey(
        state.done,
        &state.tasks,
        &state.jobs,
        &state.ladder,
        &state.tally,
    );
    load.ok_or(Refusal::Unsound)?;
    Ok(counts::energy_of(&state.ladder, &state.tally))
}
