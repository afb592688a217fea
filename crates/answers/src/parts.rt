// The calls of the crates that the governor stands on.
ghost use Rattle.std.specs.Prelude.{◌≡◌};

use refusals::Refusal;
use rules::{Choice, Dues, Job, Jobs, Ladder, Ready, State, Tally, Tasks};
use settlement::Settled;
use stepping::Stepped;
use units::{Cycles, Speed, Ticks};

pub(crate) fn cycles_in(speed: Speed, ticks: Ticks) -> (Cycles, Cycles)
    ensures { result.0 ≡ result.1 }
{
    (
        units::cycles_in(speed, ticks),
        units::cycles_in(speed, ticks),
    )
}

pub(crate) fn per_tick(cycles: Cycles) -> (Speed, Speed)
    ensures { result.0 ≡ result.1 }
{
    (units::per_tick(cycles), units::per_tick(cycles))
}

pub(crate) fn carries(speed: Speed, ticks: Ticks, load: Cycles) -> (bool, bool)
    ensures { result.0 ≡ result.1 }
{
    (
        units::carries(speed, ticks, load),
        units::carries(speed, ticks, load),
    )
}

pub(crate) fn judge(
    periods: &[u64],
    reserves: &[u64],
    speeds: &[u64],
    volts: &[u64],
) -> (Result<Ticks, Refusal>, Result<Ticks, Refusal>)
    ensures { result.0 ≡ result.1 }
{
    (
        admission::judge(periods, reserves, speeds, volts),
        admission::judge(periods, reserves, speeds, volts),
    )
}

pub(crate) fn start(
    periods: &[u64],
    reserves: &[u64],
    speeds: &[u64],
    volts: &[u64],
) -> (Result<State, Refusal>, Result<State, Refusal>)
    ensures { result.0 ≡ result.1 }
{
    (
        starting::start(periods, reserves, speeds, volts),
        starting::start(periods, reserves, speeds, volts),
    )
}

pub(crate) fn dues_of(done: Ticks, tasks: &Tasks) -> (Dues, Dues)
    ensures { result.0 ≡ result.1 }
{
    (
        choosing::dues_of(done, tasks),
        choosing::dues_of(done, tasks),
    )
}

pub(crate) fn ready_of(jobs: &Jobs, count: usize) -> (Ready, Ready)
    ensures { result.0 ≡ result.1 }
{
    (
        choosing::ready_of(jobs, count),
        choosing::ready_of(jobs, count),
    )
}

pub(crate) fn next_place(dues: &Dues, ready: &Ready, count: usize) -> (Option<usize>, Option<usize>)
    ensures { result.0 ≡ result.1 }
{
    (
        choosing::next_place(dues, ready, count),
        choosing::next_place(dues, ready, count),
    )
}

pub(crate) fn earliest(dues: &Dues, jobs: &Jobs, count: usize) -> (Choice, Choice)
    ensures { result.0 ≡ result.1 }
{
    (
        choosing::earliest(dues, jobs, count),
        choosing::earliest(dues, jobs, count),
    )
}

pub(crate) fn lowest_place(
    ladder: Ladder,
    great: Ticks,
    load: Cycles,
) -> (Option<usize>, Option<usize>)
    ensures { result.0 ≡ result.1 }
{
    (
        choosing::lowest_place(ladder, great, load),
        choosing::lowest_place(ladder, great, load),
    )
}

// Two grants lists that are equal before the calls are equal after them.
pub(crate) fn settle(
    tasks: &Tasks,
    jobs: Jobs,
    dues: &Dues,
    speed: Speed,
    report: &[u64],
    grants: &mut [u64],
    again: &mut [u64],
) -> (Option<Settled>, Option<Settled>)
    requires { grants.old ≡ again.old }
    ensures { (result.0 ≡ result.1) × (grants.new ≡ again.new) }
{
    (
        settlement::settle(tasks, jobs, dues, speed, report, grants),
        settlement::settle(tasks, jobs, dues, speed, report, again),
    )
}

pub(crate) fn job_right(job: Job) -> (bool, bool)
    ensures { result.0 ≡ result.1 }
{
    (places::job_right(job), places::job_right(job))
}

pub(crate) fn rest_unused(tasks: &Tasks, jobs: &Jobs) -> (bool, bool)
    ensures { result.0 ≡ result.1 }
{
    (
        places::rest_unused(tasks, jobs),
        places::rest_unused(tasks, jobs),
    )
}

pub(crate) fn ladder_right(ladder: &Ladder, tally: &Tally) -> (bool, bool)
    ensures { result.0 ≡ result.1 }
{
    (
        rungs::ladder_right(ladder, tally),
        rungs::ladder_right(ladder, tally),
    )
}

pub(crate) fn top_of(ladder: &Ladder) -> (Speed, Speed)
    ensures { result.0 ≡ result.1 }
{
    (rungs::top_of(ladder), rungs::top_of(ladder))
}

pub(crate) fn tally_right(done: Ticks, tally: &Tally, top: Speed) -> (bool, bool)
    ensures { result.0 ≡ result.1 }
{
    (
        tallies::tally_right(done, tally, top),
        tallies::tally_right(done, tally, top),
    )
}

pub(crate) fn survey(
    done: Ticks,
    tasks: &Tasks,
    jobs: &Jobs,
    ladder: &Ladder,
    tally: &Tally,
) -> (Option<Cycles>, Option<Cycles>)
    ensures { result.0 ≡ result.1 }
{
    (
        soundness::survey(done, tasks, jobs, ladder, tally),
        soundness::survey(done, tasks, jobs, ladder, tally),
    )
}

// Two grants lists that are equal before the calls are equal after them.
#[tactic(auto, using(crate::proofs::One::one_step))]
pub(crate) fn step(
    done: Ticks,
    tasks: &Tasks,
    jobs: &Jobs,
    ladder: &Ladder,
    tally: &Tally,
    report: &[u64],
    grants: &mut [u64],
    again: &mut [u64],
) -> (Result<Stepped, Refusal>, Result<Stepped, Refusal>)
    requires { grants.old ≡ again.old }
    ensures { (result.0 ≡ result.1) × (grants.new ≡ again.new) }
{
    (
        stepping::step(done, tasks, jobs, ladder, tally, report, grants),
        stepping::step(done, tasks, jobs, ladder, tally, report, again),
    )
}
