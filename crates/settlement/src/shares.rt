// Rule 4 for one job: whether its entry is allowed, what it gets, and whether it is over or cut by that.
ghost use Rattle.std.specs.Prelude.{◌≡◌, ◌<◌};
ghost use Rattle.settlement.specs.Parts.{share_of, runs_on, finishes_at};

use rules::Job;
use units::Cycles;

// What a ready job gets by rule 4, and whether it is over or cut by that.
#[derive(Clone, Copy, Debug, PartialEq, Eq)]
pub struct Share {
    pub given: Cycles,
    pub over: bool,
    pub cut: bool,
}

// The bullet that applies to a ready job while something is left, entry 0 or entry u; none where the entry is not allowed. (Once nothing is left, `rest_zero` sees to the entries.)
pub(crate) fn share_out(left: Cycles, entry: u64, job: Job) -> Option<Share>
    requires { 0 < left.0 }
    ensures { result ≡ share_of left.0 entry job }
{
    if entry == 0 {
        return Some(runs_on(left, job));
    }
    finishes(left, entry, job)
}

// Entry 0: the smaller of what is left and the remaining reserve, none past the reserve; if that uses up the reserve, over and cut.
fn runs_on(left: Cycles, job: Job) -> Share
    ensures { result ≡ runs_on left.0 job }
{
    let least = left.0.min(job.reserve.0.saturating_sub(job.run.0));
    let used_up = job.run.0 + least == job.reserve.0;
    Share {
        given: Cycles(least),
        over: used_up,
        cut: used_up,
    }
}

// Entry u: needs run < u <= reserve and u - run <= what is left; the job gets u - run and is over.
fn finishes(left: Cycles, entry: u64, job: Job) -> Option<Share>
    ensures { result ≡ finishes_at left.0 entry job }
{
    if entry <= job.run.0 || job.reserve.0 < entry {
        return None;
    }
    let given = entry - job.run.0;
    if left.0 < given {
        return None;
    }
    Some(Share {
        given: Cycles(given),
        over: true,
        cut: false, // also where u is the whole reserve
    })
}
