// start, the first of the governor's calls: a table judged, and its fresh state.
#![tactic(auto)]

mod tables;

ghost use Rattle.std.specs.Prelude.{◌≡◌};
ghost use Rattle.rules.specs.Calls.{start_of, started_by};

use refusals::Refusal;
use rules::State;

// start: from lent lists of periods, reserves, speeds and volts to the fresh state, or to the refusal of the smallest number of 1 to 8 that applies.
pub fn start(
    periods: &[u64],
    reserves: &[u64],
    speeds: &[u64],
    volts: &[u64],
) -> Result<State, Refusal>
    ensures { started_by result ≡ start_of periods.now reserves.now speeds.now volts.now }
{
    let great = admission::judge(periods, reserves, speeds, volts)?;
    let tasks = tables::tasks_from(great, periods, reserves);
    Ok(tables::fresh(tasks, tables::ladder_from(speeds, volts)))
}
