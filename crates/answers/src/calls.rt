// The governor's calls.
ghost use Rattle.std.specs.Prelude.{◌≡◌};

use refusals::Refusal;
use rules::{Advice, State};

pub(crate) fn start(
    periods: &[u64],
    reserves: &[u64],
    speeds: &[u64],
    volts: &[u64],
) -> (Result<State, Refusal>, Result<State, Refusal>)
    ensures { result.0 ≡ result.1 }
{
    let first = governor::start(periods, reserves, speeds, volts);
    (first, governor::start(periods, reserves, speeds, volts))
}

pub(crate) fn now(state: State) -> (Result<Advice, Refusal>, Result<Advice, Refusal>)
    ensures { result.0 ≡ result.1 }
{
    (governor::now(state), governor::now(state))
}

// Two grants lists that are equal before the calls are equal after them.
#[tactic(auto, using(crate::proofs::One::one_tick))]
pub(crate) fn tick(
    state: State,
    report: &[u64],
    grants: &mut [u64],
    again: &mut [u64],
) -> (Result<State, Refusal>, Result<State, Refusal>)
    requires { grants.old ≡ again.old }
    ensures { (result.0 ≡ result.1) × (grants.new ≡ again.new) }
{
    (
        governor::tick(state, report, grants),
        governor::tick(state, report, again),
    )
}

pub(crate) fn energy(state: State) -> (Result<u64, Refusal>, Result<u64, Refusal>)
    ensures { result.0 ≡ result.1 }
{
    (governor::energy(state), governor::energy(state))
}
