// The marks of a state: bytes at the boundary, bools behind it.
ghost use Rattle.std.specs.Prelude.{◌≡◌, map};
ghost use Rattle.rules.specs.Words.{every};
ghost use Rattle.piszczalin.specs.Plain.{is_mark, over_of, mark_of, state_of, plain_state_of};
ghost use Rattle.piszczalin.specs.Parts.{jobs_of_plain, plain_jobs_of};

use crate::{PlainJobs, PlainState};
use rules::{Jobs, State};

// Whether all sixteen bytes are marks: the highest of them is at most 1.
// The highest of them by a `for`: it compiles to vector code. `all` was not measured alone.
pub(crate) fn good(marks: [u8; 16]) -> bool
    ensures { result ≡ every is_mark marks }
{
    let mut highest = 0;
    for mark in marks {
        highest = mark.max(highest);
    }
    highest <= 1
}

// The plain jobs of jobs.
impl From<Jobs> for PlainJobs {
    ghost from_gives = { λ jobs plain. plain ≡ plain_jobs_of jobs };

    fn from(jobs: Jobs) -> PlainJobs {
        let Jobs { run, over } = jobs;
        let over = marks_of(over);
        PlainJobs { run, over }
    }
}

// The jobs that plain jobs are, where their marks are good.
pub(crate) fn jobs_of(jobs: PlainJobs) -> Jobs
    ensures { result ≡ jobs_of_plain jobs }
{
    let PlainJobs { run, over } = jobs;
    let over = overs(over);
    Jobs { run, over }
}

// The plain state of a state.
impl From<State> for PlainState {
    ghost from_gives = { λ state plain. plain ≡ plain_state_of state };

    #[tactic(auto, unfolding(crate::specs::Plain::plain_state_of))]
    fn from(state: State) -> PlainState {
        let jobs = PlainJobs::from(state.jobs);
        PlainState {
            done: state.done,
            tasks: state.tasks,
            jobs,
            ladder: state.ladder,
            tally: state.tally,
        }
    }
}

// The state that a plain state is, where its marks are good.
// Stays: a function and no TryFrom: a Result of a whole state takes a tick above its 4,096 bytes of stack and asks for memset (tried).
#[tactic(auto, unfolding(crate::specs::Plain::state_of))]
pub(crate) fn state_of(state: &PlainState) -> State
    ensures { result ≡ state_of state.now }
{
    let jobs = jobs_of(state.jobs);
    State {
        done: state.done,
        tasks: state.tasks,
        jobs,
        ladder: state.ladder,
        tally: state.tally,
    }
}

// Whether each job is over, from its mark.
// A `for` here and below: the array's `map` was given up together with other forms when the library asked for memset, and was not measured alone.
fn overs(marks: [u8; 16]) -> [bool; 16]
    ensures { result ≡ map over_of marks }
{
    let mut over = [false; 16];
    for i in 0..16 {
        over[i] = marks[i] == 1;
    }
    over
}

// The mark of each job.
pub(crate) fn marks_of(over: [bool; 16]) -> [u8; 16]
    ensures { result ≡ map mark_of over }
{
    let mut marks = [0; 16];
    for i in 0..16 {
        marks[i] = u8::from(over[i]);
    }
    marks
}
