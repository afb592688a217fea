// A head's program around the governor's calls.
ghost use Rattle.std.specs.Prelude.{◌≡◌, length};
ghost use Rattle.rules.specs.Calls.{start_of, now_of, tick_of, grants_of, energy_of};
ghost use Rattle.rules.specs.Choice.{task_of};

use rules::{Choice, State};
use units::Speed;

// The speed for a table's first tick. The refusal of start needs no test: the default of a state is
// the all-zero state, which now refuses with 9, and so the speed is 0.
pub(crate) fn first_speed(periods: &[u64], reserves: &[u64], speeds: &[u64], volts: &[u64]) -> Speed
    ensures { let ps = periods.now in
        let cs = reserves.now in
        let ss = speeds.now in
        let vs = volts.now in
        result ≡ (now_of (start_of ps cs ss vs).state).speed }
{
    let state = governor::start(periods, reserves, speeds, volts).unwrap_or_default();
    governor::now(state).map_or(Speed(0), |advice| advice.speed)
}

// The task to begin the next tick with, counted from 1; 0 where none is ready or now refuses.
pub(crate) fn next_task(state: State) -> u64
    ensures { result ≡ task_of (now_of state).choice }
{
    let Ok(advice) = governor::now(state) else {
        return 0;
    };
    match advice.choice {
        Choice::Task { number, .. } => number,
        Choice::Nothing => 0,
    }
}

// The state to go on with after a tick: where tick refuses, the one given, and no grant is written.
pub(crate) fn step(state: State, report: &[u64], grants: &mut [u64]) -> State
    ensures { (result ≡ (tick_of state report.now (length grants.old)).state)
        × (grants.new ≡ grants_of state report.now grants.old) }
{
    governor::tick(state, report, grants).unwrap_or(state)
}

// The energy that a state has used; 0 where energy refuses.
pub(crate) fn used(state: State) -> u64
    ensures { result ≡ (energy_of state).energy }
{
    governor::energy(state).unwrap_or(0)
}
