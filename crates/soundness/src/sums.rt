// One walk over the tasks, each tested and then added, H / P taken once for each: the sums of rules 7 and 2, and whether H is right.
ghost use Rattle.std.specs.Prelude.{◌≡◌};
ghost use Rattle.divisors.specs.Divisors.{gcd_of};
ghost use Rattle.units.specs.Units.{cycles};
ghost use Rattle.rules.specs.Words.{every};
ghost use Rattle.rules.specs.State.{jobs_of};
ghost use Rattle.rules.specs.Load.{use_of};
ghost use Rattle.places.specs.Places.{job_right};
ghost use Rattle.soundness.specs.Parts.{Room, Small, with_job, summing, tasks_right, great_test};

use rules::{Job, Jobs, Tasks};
use units::{Cycles, Ticks};

// The sum of reserve x (H / P), the sum of use x (H / P), the greatest common divisor of all H / P, and the sum of what each P leaves of H.
#[derive(Clone, Copy, Default)]
pub(crate) struct Sums {
    pub(crate) full: Cycles,
    pub(crate) load: Cycles,
    pub(crate) common: u64,
    pub(crate) rest: Ticks,
}

// Rule 2: a job's use is its reserve until it is over, and then the cycles it ran.
#[tactic(auto, unfolding(rules::specs::Load::use_of))]
pub(crate) fn use_of(job: Job) -> Cycles
    ensures { result ≡ cycles (use_of job) }
{
    if job.over { job.run } else { job.reserve }
}

// The greatest common divisor with one number more; 1 stays 1.
#[tactic(auto, using(crate::proofs::SumLaws::common_stays, crate::proofs::SumLaws::common_is))]
pub(crate) fn common_with(common: u64, times: u64) -> u64
    ensures { result ≡ gcd_of common times }
{
    if common == 1 {
        1
    } else {
        divisors::gcd(common, times)
    }
}

// One task more.
#[tactic(auto, using(crate::proofs::SumLaws::period_some, crate::proofs::SumLaws::full_term, crate::proofs::SumLaws::load_term), unfolding(crate::specs::Parts::with_job))]
pub(crate) fn with_job(sums: Sums, job: Job, great: Ticks) -> Sums
    requires { Room sums job great }
    ensures { result ≡ with_job great sums job }
{
    let times = great.0 / job.period.0;
    let used = use_of(job);
    Sums {
        full: Cycles(sums.full.0 + job.reserve.0 * times),
        load: Cycles(sums.load.0 + used.0 * times),
        common: common_with(sums.common, times),
        rest: Ticks(sums.rest.0 + (great.0 - times * job.period.0)),
    }
}

// The sums over all tasks, each task tested first; none where a task is not right.
pub(crate) fn sums_of(tasks: &Tasks, jobs: &Jobs) -> Option<Sums>
    requires { Small tasks.now }
    ensures { result ≡ summing (every job_right (jobs_of tasks.now jobs.now)) tasks.now jobs.now }
{
    let mut sums = Sums::default();
    for i in 0..tasks.count {
        let job = Job {
            period: tasks.periods[i],
            reserve: tasks.reserves[i],
            run: jobs.run[i],
            over: jobs.over[i],
        };
        if !places::job_right(job) {
            return None;
        }
        sums = with_job(sums, job, tasks.great);
    }
    Some(sums)
}

// No. 1, 3, 4 and 7, the runs of the current jobs, and zeros past them: the sums of a task side that is right.
#[tactic(auto, using(crate::proofs::SumLaws::no_task, crate::proofs::SumLaws::many_tasks, crate::proofs::SumLaws::great_large, crate::proofs::SumLaws::rest_used, crate::proofs::SumLaws::jobs_decide), unfolding(crate::specs::Parts::summing))]
pub(crate) fn task_sums(tasks: &Tasks, jobs: &Jobs) -> Option<Sums>
    ensures { result ≡ summing (tasks_right tasks.now jobs.now) tasks.now jobs.now }
{
    if tasks.count < 1
        || tasks.count > 16
        || tasks.great.0 > 1000000
        || !places::rest_unused(tasks, jobs)
    {
        return None;
    }
    sums_of(tasks, jobs)
}

// H is right: every period divides it, and the quotients have no common divisor but 1.
#[tactic(auto, unfolding(crate::specs::Parts::great_test))]
pub(crate) fn great_right(sums: Sums) -> bool
    ensures { result ≡ great_test sums }
{
    sums.rest == Ticks(0) && sums.common == 1
}
