// The ticks of a run, one after the other, each into its row.
ghost use Rattle.std.specs.Prelude.{◌≡◌, cond, ◌+◌, ◌≤◌, ◌<◌, ◌^◌, eqb, length, sum, take};
ghost use Rattle.std.proofs.lemmas.List.Edits.{sets};
ghost use Rattle.rules.specs.Calls.{tick_of, ticked_by};
ghost use Rattle.runfile.specs.Good.{GoodEnds};
ghost use Rattle.player.specs.Plays.{ends_of, tick_played, play_from};
ghost use Rattle.player.specs.Rows.{ending_by, ending_of, row_of, rows_of};
ghost use Rattle.player.specs.Parts.{past_tick, Runnable, entered, ticks_in, tasks_in, cycles_in};

use crate::Played;
use refusals::Refusal;
use rules::State;
use runfile::End;
use units::{Cycles, Ticks};

// Every tick of the run from a state on, each with the report of its end lines; a refused tick ends the run.
pub(crate) fn play_run(mut state: State, ends: &[End], run: Ticks, rows: &mut [u64]) -> Played
    requires { Runnable state ends.now run.0 (length rows.old) }
    ensures value { ending_by result ≡ ending_of (play_from (ends_of ends.now) run.0 state) }
    ensures rows_after { rows.new ≡ sets rows.old 0 (rows_of (play_from (ends_of ends.now) run.0 state).ticks) }
{
    let n = state.tasks.count;
    let width = n + 2;
    let mut next = 0;
    for t in 0..run.0 {
        let mut report = [0; 16];
        next = enter(ends, next, Ticks(t), &mut report[..n]);
        let at = t as usize * width;
        match play_tick(state, &report[..n], &mut rows[at..at + width]) {
            Ok(after) => state = after,
            Err(refusal) => {
                return Played {
                    refusal: Some(refusal),
                    state,
                };
            }
        }
    }
    Played {
        refusal: None,
        state,
    }
}

// The end lines of a tick, from a place among all of them on, entered into its report; the place of the first end line of a later tick.
pub(crate) fn enter(ends: &[End], from: usize, t: Ticks, report: &mut [u64]) -> usize
    requires good { GoodEnds (length report.old) ends.now }
    requires within { from ≤ length ends.now }
    ensures value { result ≡ past_tick (ticks_in ends.now) t.0 from }
    ensures report_after { report.new ≡ entered (ticks_in ends.now) (tasks_in ends.now) (cycles_in ends.now) t.0 from report.old }
{
    for k in from..ends.len() {
        let end = ends[k];
        if end.tick != t {
            return k;
        }
        report[end.task as usize - 1] = end.cycles.0;
    }
    ends.len()
}

// One tick into its row. Its speed is that at which one tick has the cycles that were granted and that remain: now would tell the same.
pub(crate) fn play_tick(state: State, report: &[u64], row: &mut [u64]) -> Result<State, Refusal>
    requires { length row.old ≡ length report.now + 2 }
    ensures value { ticked_by state result ≡ tick_of state report.now (length report.now) }
    ensures row_after { row.new ≡ cond (eqb (tick_of state report.now (length report.now)).number 0) (row_of (tick_played state report.now)) row.old }
{
    let end = report.len() + 1;
    let after = governor::tick(state, report, &mut row[1..end])?;
    let idle = after.tally.idle.0 - state.tally.idle.0;
    row[end] = idle;
    let granted = sum(&row[1..end]);
    row[0] = units::per_tick(Cycles(granted.0 + idle)).0;
    Ok(after)
}

// The cycles of a list of grants together.
fn sum(grants: &[u64]) -> Cycles
    requires { sum grants.now < 2 ^ 64 }
    ensures { result.0 ≡ sum grants.now }
{
    Cycles(grants.iter().sum())
}
