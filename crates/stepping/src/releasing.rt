// Rule 5: the counts of a tick, and the releases at the new one.
ghost use Rattle.std.specs.Prelude.{◌≡◌, ◌-◌};
ghost use Rattle.stepping.specs.Parts.{Steps, after_of};

use crate::{Stepped, counts};
use rules::{Dues, Tally, Tasks};
use settlement::Settled;
use units::{Cycles, Speed, Ticks};

// Rule 5: what a tick at the speed of a place changes, with its deadlines and what its settlement came to. Each task whose period divides the new tick is released, those whose deadline it is: a job not over is counted as late and dropped, the new one has run 0.
pub(crate) fn after(
    done: Ticks,
    tasks: &Tasks,
    tally: &Tally,
    place: usize,
    speed: Speed,
    dues: &Dues,
    settled: &Settled,
) -> Stepped
    requires { Steps done tasks.now tally.now place speed dues.now settled.now }
    ensures { result ≡ after_of done tasks.now tally.now place (speed.0 - settled.now.left.0) settled.now }
{
    let next = Ticks(done.0 + 1);
    let mut tally = counts::count_tick(*tally, place, speed, settled.left, settled.cut);
    let mut jobs = settled.jobs;
    for i in 0..tasks.count {
        if dues.at[i] == next {
            if !jobs.over[i] {
                tally.late += 1;
            }
            jobs.run[i] = Cycles(0);
            jobs.over[i] = false;
        }
    }
    Stepped {
        done: next,
        jobs,
        tally,
    }
}
