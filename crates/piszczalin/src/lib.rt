// The boundary: the governor's four calls under plain names, for C and Rust to link. Structs are laid out as C lays them out, a list is a
// pointer and a length, now's choice goes over in plain numbers, and a mark is a byte: any bytes are taken, and those that are no sound state are answered with 9.
#![tactic(auto)]

mod answers;
mod marks;
mod ticks;

ghost use Rattle.std.specs.Prelude.{◌≡◌, length};
ghost use Rattle.piszczalin.specs.Calls.{plain_start, plain_now, plain_tick, plain_grants, plain_energy};

use refusals::Refusal;
use rules::{Ladder, Tally, Tasks};
use units::{Cycles, Speed, Ticks};

// Each task's current job: the cycles that it ran, and its mark, 1 where it is over and 0 where it is not.
#[repr(C)]
#[derive(Clone, Copy)]
pub struct PlainJobs {
    pub run: [Cycles; 16],
    pub over: [u8; 16],
}

// The whole state, of any bytes.
#[repr(C)]
#[derive(Clone, Copy)]
pub struct PlainState {
    pub done: Ticks,
    pub tasks: Tasks,
    pub jobs: PlainJobs,
    pub ladder: Ladder,
    pub tally: Tally,
}

// What start answers: a number, and the fresh state or the all-zero one.
// Stays: the C interface takes a number beside a value, here and in the three answers below.
#[repr(C)]
#[derive(Clone, Copy)]
pub struct PlainStarted {
    pub number: u64,
    pub state: PlainState,
}

// What now answers, in plain numbers: task 0 and deadline 0 where nothing is ready.
#[repr(C)]
#[derive(Clone, Copy)]
pub struct PlainTold {
    pub number: u64,
    pub task: u64,
    pub deadline: Ticks,
    pub speed: Speed,
}

// What tick answers: a number, and the next state or the one given.
#[repr(C)]
#[derive(Clone, Copy)]
pub struct PlainTicked {
    pub number: u64,
    pub state: PlainState,
}

// What energy answers: a number, and the energy or 0.
#[repr(C)]
#[derive(Clone, Copy)]
pub struct PlainUsed {
    pub number: u64,
    pub energy: u64,
}

// start: from lent lists to 0 and the fresh state, or to the smallest number of 1 to 8 that applies and the all-zero state.
#[tactic(auto, unfolding(crate::specs::Calls::plain_start))]
pub fn piszczalin_start(
    periods: &[u64],
    reserves: &[u64],
    speeds: &[u64],
    volts: &[u64],
) -> PlainStarted
    ensures { result ≡ plain_start periods.now reserves.now speeds.now volts.now }
{
    PlainStarted::from(governor::start(periods, reserves, speeds, volts))
}

// now: from any state to the choice and the speed; refused (9, 10, 12), nothing chosen and speed 0.
pub fn piszczalin_now(state: PlainState) -> PlainTold
    ensures { result ≡ plain_now state }
{
    if !marks::good(state.jobs.over) {
        return PlainTold::from(Err(Refusal::Unsound));
    }
    PlainTold::from(governor::now(marks::state_of(&state)))
}

// tick: from any state and a report to the next state, each task's cycles written to the grants list; refused (9 to 13), the state given and the list as it was.
pub fn piszczalin_tick(state: PlainState, report: &[u64], grants: &mut [u64]) -> PlainTicked
    ensures { (result ≡ plain_tick state report.now (length grants.old))
        × (grants.new ≡ plain_grants state report.now grants.old) }
{
    let mut state = state;
    let answer = ticks::step(&mut state, report, grants);
    PlainTicked {
        number: answers::number(answer),
        state,
    }
}

// energy: from any state to the sum over speeds of count x volts x volts; refused (9), 0.
pub fn piszczalin_energy(state: PlainState) -> PlainUsed
    ensures { result ≡ plain_energy state }
{
    if !marks::good(state.jobs.over) {
        return PlainUsed::from(Err(Refusal::Unsound));
    }
    PlainUsed::from(governor::energy(marks::state_of(&state)))
}
