// The run file's reader: from any bytes to the run file that they are, or to 14.
#![tactic(auto)]

mod ends;
mod groups;

ghost use Rattle.std.specs.Prelude.{◌≡◌};
ghost use Rattle.runfile.specs.RunFile.{run_file_of};

use arrayvec::ArrayVec;
pub use ends::Ends;
use groups::{EndsRead, PairsRead};
use lines::RunLine;
use refusals::Refusal;
use units::{Cycles, Ticks};

// Task lines (period in ticks, reserve in cycles) or speed lines (speed, volts): the first numbers of all, and the second ones.
#[derive(Drop)]
pub struct Pairs {
    pub firsts: ArrayVec<u64, 16>,
    pub seconds: ArrayVec<u64, 16>,
}

// An end line: its tick, its task from 1 and its cycles.
#[derive(Clone, Copy, Debug, Default, PartialEq, Eq)]
pub struct End {
    pub tick: Ticks,
    pub task: u64,
    pub cycles: Cycles,
}

// A run file: its groups of lines, and the run line's ticks.
#[derive(Drop)]
pub struct RunFile {
    pub tasks: Pairs,
    pub speeds: Pairs,
    pub ends: Ends,
    pub ticks: Ticks,
}

// The run file that a text is; 14 where it is none.
pub fn read(text: &[u8]) -> Result<RunFile, Refusal>
    ensures { result ≡ run_file_of text.now }
{
    if text.len() > 65536 {
        return Err(Refusal::NoRunFile);
    }
    let Some(PairsRead { pairs: tasks, next }) = groups::pairs(text, 0, b"task,", 16) else {
        return Err(Refusal::NoRunFile);
    };
    let Some(
        PairsRead {
            pairs: speeds,
            next,
        },
    ) = groups::pairs(text, next, b"speed,", 8)
    else {
        return Err(Refusal::NoRunFile);
    };
    let Some(EndsRead { ends, next }) = groups::ends(text, next, tasks.firsts.len()) else {
        return Err(Refusal::NoRunFile);
    };
    let Some(RunLine { ticks, next }) = lines::run_line(text, next) else {
        return Err(Refusal::NoRunFile);
    };
    let closed = groups::closes(ends.as_slice(), ticks);
    if next != text.len() || ticks.0 > 10000 || !closed {
        return Err(Refusal::NoRunFile);
    }
    Ok(RunFile {
        tasks,
        speeds,
        ends,
        ticks,
    })
}
