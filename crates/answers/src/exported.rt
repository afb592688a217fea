// The boundary's calls: each beside the governor's own, for a state and its plain form, and each made twice with any input.
ghost use Rattle.std.specs.Prelude.{◌≡◌};
ghost use Rattle.rules.specs.Calls.{started_by, told_by, ticked_by, used_by};
ghost use Rattle.piszczalin.specs.Plain.{plain_state_of, plain_of, plain_used};
ghost use Rattle.piszczalin.specs.Calls.{plain_started, plain_ticked};

use piszczalin::{PlainStarted, PlainState, PlainTicked, PlainTold, PlainUsed};
use refusals::Refusal;
use rules::{Advice, State};

// Beside the governor's own.
pub(crate) fn exported_start(
    periods: &[u64],
    reserves: &[u64],
    speeds: &[u64],
    volts: &[u64],
) -> (Result<State, Refusal>, PlainStarted)
    ensures { plain_started (started_by result.0) ≡ result.1 }
{
    (
        governor::start(periods, reserves, speeds, volts),
        piszczalin::piszczalin_start(periods, reserves, speeds, volts),
    )
}

pub(crate) fn exported_now(state: State, plain: PlainState) -> (Result<Advice, Refusal>, PlainTold)
    requires { plain ≡ plain_state_of state }
    ensures { plain_of (told_by result.0) ≡ result.1 }
{
    (governor::now(state), piszczalin::piszczalin_now(plain))
}

// Two grants lists that are equal before the calls are equal after them.
pub(crate) fn exported_tick(
    state: State,
    plain: PlainState,
    report: &[u64],
    grants: &mut [u64],
    again: &mut [u64],
) -> (Result<State, Refusal>, PlainTicked)
    requires { (plain ≡ plain_state_of state) × (grants.old ≡ again.old) }
    ensures { (plain_ticked (ticked_by state result.0) ≡ result.1) × (grants.new ≡ again.new) }
{
    (
        governor::tick(state, report, grants),
        piszczalin::piszczalin_tick(plain, report, again),
    )
}

pub(crate) fn exported_energy(state: State, plain: PlainState) -> (Result<u64, Refusal>, PlainUsed)
    requires { plain ≡ plain_state_of state }
    ensures { plain_used (used_by result.0) ≡ result.1 }
{
    (
        governor::energy(state),
        piszczalin::piszczalin_energy(plain),
    )
}

// Twice, for any input: a state may be any bytes.
pub(crate) fn start_twice(
    periods: &[u64],
    reserves: &[u64],
    speeds: &[u64],
    volts: &[u64],
) -> (PlainStarted, PlainStarted)
    ensures { result.0 ≡ result.1 }
{
    (
        piszczalin::piszczalin_start(periods, reserves, speeds, volts),
        piszczalin::piszczalin_start(periods, reserves, speeds, volts),
    )
}

pub(crate) fn now_twice(state: PlainState) -> (PlainTold, PlainTold)
    ensures { result.0 ≡ result.1 }
{
    (
        piszczalin::piszczalin_now(state),
        piszczalin::piszczalin_now(state),
    )
}

// Two grants lists that are equal before the calls are equal after them.
pub(crate) fn tick_twice(
    state: PlainState,
    report: &[u64],
    grants: &mut [u64],
    again: &mut [u64],
) -> (PlainTicked, PlainTicked)
    requires { grants.old ≡ again.old }
    ensures { (result.0 ≡ result.1) × (grants.new ≡ again.new) }
{
    (
        piszczalin::piszczalin_tick(state, report, grants),
        piszczalin::piszczalin_tick(state, report, again),
    )
}

pub(crate) fn energy_twice(state: PlainState) -> (PlainUsed, PlainUsed)
    ensures { result.0 ≡ result.1 }
{
    (
        piszczalin::piszczalin_energy(state),
        piszczalin::piszczalin_energy(state),
    )
}
