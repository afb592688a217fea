// Rule 4: a report is settled, job by job, in the order of rule 3.
#![tactic(auto)]

mod entries;
mod shares;

ghost use Rattle.std.specs.Prelude.{◌≡◌};
ghost use Rattle.choosing.specs.Choosing.{order_in};
ghost use Rattle.settlement.specs.Settled.{settled_of, granted_of, paid};

use rules::{Dues, Job, Jobs, Tasks};
use units::{Cycles, Speed};

// A tick settled: the jobs after it, the cycles left, the jobs cut.
#[derive(Clone, Copy, Debug, PartialEq, Eq)]
pub struct Settled {
    pub jobs: Jobs,
    pub left: Cycles,
    pub cut: u64,
}

// The tick of these tasks and jobs at a speed, settled by a report in the order of the deadlines, with each job's cycles written to the grants list; none where an entry breaks rule 4, and the list is as it was.
#[tactic(auto, using(choosing::proofs::Waiting::first_below))]
pub fn settle(
    tasks: &Tasks,
    jobs: Jobs,
    dues: &Dues,
    speed: Speed,
    report: &[u64],
    grants: &mut [u64],
) -> Option<Settled>
    ensures { (result ≡ settled_of tasks.now jobs (order_in dues.now jobs tasks.now.count) speed.0 report.now)
        × (grants.new ≡ granted_of tasks.now jobs (order_in dues.now jobs tasks.now.count) speed.0 report.now grants.old) }
{
    let mut ready = choosing::ready_of(&jobs, tasks.count);
    let mut after = jobs;
    let mut given = [Cycles(0); 16];
    let mut left = Cycles(speed.0);
    let mut cut = 0;
    // while cycles are left the earliest of the jobs that wait is settled, each in place
    while 0 < left.0 {
        let Some(i) = choosing::next_place(dues, &ready, tasks.count) else {
            break;
        };
        let job = Job {
            period: tasks.periods[i],
            reserve: tasks.reserves[i],
            run: after.run[i],
            over: after.over[i],
        };
        let share = shares::share_out(left, entries::entry_at(report, i), job)?;
        ready.at[i] = false;
        after.run[i] = Cycles(job.run.0 + share.given.0);
        after.over[i] = share.over;
        given[i] = share.given;
        left = Cycles(left.0 - share.given.0);
        cut += u64::from(share.cut);
    }
    if !entries::rest_zero(&jobs, &ready, tasks.count, report) {
        return None;
    }
    pay(&given, grants);
    Some(Settled {
        jobs: after,
        left,
        cut,
    })
}

// Each job's cycles written to the places, of at most 16, that the grants list has.
fn pay(given: &[Cycles; 16], grants: &mut [u64])
    ensures { grants.new ≡ paid given.now grants.old }
{
    for i in 0..grants.len().min(16) {
        grants[i] = given[i].0;
    }
}
