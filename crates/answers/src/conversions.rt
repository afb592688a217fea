// The conversions: of a refusal into its number, and of the governor's answers, jobs and states into plain ones.
ghost use Rattle.std.specs.Prelude.{◌≡◌};

use piszczalin::{PlainJobs, PlainStarted, PlainState, PlainTold, PlainUsed};
use refusals::Refusal;
use rules::{Advice, Jobs, State};

pub(crate) fn number(refusal: Refusal) -> (u64, u64)
    ensures { result.0 ≡ result.1 }
{
    (u64::from(refusal), u64::from(refusal))
}

pub(crate) fn plain_started(started: Result<State, Refusal>) -> (PlainStarted, PlainStarted)
    ensures { result.0 ≡ result.1 }
{
    (PlainStarted::from(started), PlainStarted::from(started))
}

pub(crate) fn plain_told(told: Result<Advice, Refusal>) -> (PlainTold, PlainTold)
    ensures { result.0 ≡ result.1 }
{
    (PlainTold::from(told), PlainTold::from(told))
}

pub(crate) fn plain_used(used: Result<u64, Refusal>) -> (PlainUsed, PlainUsed)
    ensures { result.0 ≡ result.1 }
{
    (PlainUsed::from(used), PlainUsed::from(used))
}

pub(crate) fn plain_jobs(jobs: Jobs) -> (PlainJobs, PlainJobs)
    ensures { result.0 ≡ result.1 }
{
    (PlainJobs::from(jobs), PlainJobs::from(jobs))
}

pub(crate) fn plain_state(state: State) -> (PlainState, PlainState)
    ensures { result.0 ≡ result.1 }
{
    (PlainState::from(state), PlainState::from(state))
}
