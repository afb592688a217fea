// The task places of a state: each task's numbers in their ranges and its job's run right, and zeros past the count.
#![tactic(auto)]

ghost use Rattle.std.specs.Prelude.{◌≡◌};
ghost use Rattle.rules.specs.Words.{every};
ghost use Rattle.rules.specs.Numbers.{unused_job};
ghost use Rattle.places.specs.Places.{job_right, jobs_past};

use rules::{Job, Jobs, Tasks};

// No. 3, 4 and the run of the current job: below the reserve while it is not over, then from 1 to the reserve.
#[tactic(auto, using(std::proofs::lemmas::Bool::Decides::nat_tests), unfolding(crate::specs::Places::job_right, rules::specs::Numbers::run_right, rules::specs::Limits::up_to_most))]
pub fn job_right(job: Job) -> bool
    ensures { result ≡ job_right job }
{
    if !(1..=1000000).contains(&job.period.0) || !(1..=1000000000).contains(&job.reserve.0) {
        return false;
    }
    if job.over {
        return (1..=job.reserve.0).contains(&job.run.0);
    }
    job.run < job.reserve
}

// Whether a place holds zeros and no mark.
#[tactic(auto, unfolding(rules::specs::Numbers::unused_job))]
fn unused_job(job: Job) -> bool
    ensures { result ≡ unused_job job }
{
    job == Job::default()
}

// Whether every place from the count on is unused.
#[tactic(auto, using(crate::proofs::PlaceLaws::rest_is, crate::proofs::PlaceLaws::rest_on, crate::proofs::PlaceLaws::rest_stop, crate::proofs::PlaceLaws::rest_end))]
pub fn rest_unused(tasks: &Tasks, jobs: &Jobs) -> bool
    ensures { result ≡ every unused_job (jobs_past tasks.now jobs.now) }
{
    for i in tasks.count..16 {
        let job = Job {
            period: tasks.periods[i],
            reserve: tasks.reserves[i],
            run: jobs.run[i],
            over: jobs.over[i],
        };
        if !unused_job(job) {
            return false;
        }
    }
    true
}
