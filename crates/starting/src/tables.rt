// States from tables: the lists laid into arrays, and the fresh state.
ghost use Rattle.std.specs.Prelude.{◌≡◌, get_or};
ghost use Rattle.rules.specs.Calls.{tasks_from, ladder_from, fresh_state};

use rules::{Ladder, State, Tasks};
use std::array;
use units::{Cycles, Speed, Ticks, Volts};

// The number at a place of a list, and 0 past its end.
fn number_at(list: &[u64], i: usize) -> u64
    ensures { result ≡ get_or list.now i 0 }
{
    list.get(i).copied().unwrap_or(0)
}

// The task side of a table, zero past the last task.
pub(crate) fn tasks_from(great: Ticks, periods: &[u64], reserves: &[u64]) -> Tasks
    ensures { result ≡ tasks_from great.0 periods.now reserves.now }
{
    Tasks {
        count: periods.len(),
        great,
        periods: array::from_fn(|i| Ticks(number_at(periods, i))),
        reserves: array::from_fn(|i| Cycles(number_at(reserves, i))),
    }
}

// The speed side of a table, zero past the last speed.
pub(crate) fn ladder_from(speeds: &[u64], volts: &[u64]) -> Ladder
    ensures { result ≡ ladder_from speeds.now volts.now }
{
    Ladder {
        count: speeds.len(),
        speeds: array::from_fn(|i| Speed(number_at(speeds, i))),
        volts: array::from_fn(|i| Volts(number_at(volts, i))),
    }
}

// A table at tick 0: every task released, nothing run and nothing counted.
pub(crate) fn fresh(tasks: Tasks, ladder: Ladder) -> State
    ensures { result ≡ fresh_state tasks ladder }
{
    State {
        tasks,
        ladder,
        ..State::default()
    }
}
