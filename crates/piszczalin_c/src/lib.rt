// The static library: the boundary's four calls under their names for C, each with the clauses of the call that it makes.
#![tactic(auto)]

ghost use Rattle.std.specs.Prelude.{◌≡◌, length};
ghost use Rattle.piszczalin.specs.Calls.{plain_start, plain_now, plain_tick, plain_grants, plain_energy};

use piszczalin::{PlainStarted, PlainState, PlainTicked, PlainTold, PlainUsed};

// start: from lent lists to 0 and the fresh state, or to the smallest number of 1 to 8 that applies and the all-zero state.
#[unsafe(no_mangle)]
pub extern "C" fn piszczalin_start(
    periods: &[u64],
    reserves: &[u64],
    speeds: &[u64],
    volts: &[u64],
) -> PlainStarted
    ensures { result ≡ plain_start periods.now reserves.now speeds.now volts.now }
{
    piszczalin::piszczalin_start(periods, reserves, speeds, volts)
}

// now: from any state to the choice and the speed; refused (9, 10, 12), nothing chosen and speed 0.
#[unsafe(no_mangle)]
pub extern "C" fn piszczalin_now(state: PlainState) -> PlainTold
    ensures { result ≡ plain_now state }
{
    piszczalin::piszczalin_now(state)
}

// tick: from any state and a report to the next state, each task's cycles written to the grants list; refused (9 to 13), the state given and the list as it was.
#[unsafe(no_mangle)]
pub extern "C" fn piszczalin_tick(
    state: PlainState,
    report: &[u64],
    grants: &mut [u64],
) -> PlainTicked
    ensures { (result ≡ plain_tick state report.now (length grants.old))
        × (grants.new ≡ plain_grants state report.now grants.old) }
{
    piszczalin::piszczalin_tick(state, report, grants)
}

// energy: from any state to the sum over speeds of count x volts x volts; refused (9), 0.
#[unsafe(no_mangle)]
pub extern "C" fn piszczalin_energy(state: PlainState) -> PlainUsed
    ensures { result ≡ plain_energy state }
{
    piszczalin::piszczalin_energy(state)
}
