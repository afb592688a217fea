// The governor's state and the answers of the four calls, as plain values. Document 01's rules on them are the definitions in specs/.
#![tactic(auto)]

use units::{Cycles, Speed, Ticks, Volts};

// The task side of a table: how many tasks, the great period H, and each task's period and reserve.
// Stays: arrays side by side with a count, since document 01 asks arrays of fixed length and C's layout (piszczalin.h) has them so; Jobs, Ladder and Tally too.
#[repr(C)]
#[derive(Clone, Copy, Debug, Default, PartialEq, Eq)]
pub struct Tasks {
    pub count: usize,
    pub great: Ticks,
    pub periods: [Ticks; 16],
    pub reserves: [Cycles; 16],
}

// Each task's current job: the cycles that it ran, and whether it is over.
#[repr(C)]
#[derive(Clone, Copy, Debug, Default, PartialEq, Eq)]
pub struct Jobs {
    pub run: [Cycles; 16],
    pub over: [bool; 16],
}

// One task with its current job.
#[derive(Clone, Copy, Debug, Default, PartialEq, Eq)]
pub struct Job {
    pub period: Ticks,
    pub reserve: Cycles,
    pub run: Cycles,
    pub over: bool,
}

// The speed side of a table: how many speeds, and each with its volts.
#[repr(C)]
#[derive(Clone, Copy, Debug, Default, PartialEq, Eq)]
pub struct Ladder {
    pub count: usize,
    pub speeds: [Speed; 8],
    pub volts: [Volts; 8],
}

// What has been counted: cycles granted at each speed, idle cycles, jobs that were late, jobs that were cut.
#[repr(C)]
#[derive(Clone, Copy, Debug, Default, PartialEq, Eq)]
pub struct Tally {
    pub counts: [Cycles; 8],
    pub idle: Cycles,
    pub late: u64,
    pub cut: u64,
}

// The whole state: the ticks done so far, the table, the current jobs and the counts.
#[repr(C)]
#[derive(Clone, Copy, Debug, Default, PartialEq, Eq)]
pub struct State {
    pub done: Ticks,
    pub tasks: Tasks,
    pub jobs: Jobs,
    pub ladder: Ladder,
    pub tally: Tally,
}

// Rule 1: each task's deadline at a tick.
#[derive(Clone, Copy, Debug, PartialEq, Eq)]
pub struct Dues {
    pub at: [Ticks; 16],
}

// Rule 3: which places wait for their turn.
#[derive(Clone, Copy, Debug, PartialEq, Eq)]
pub struct Ready {
    pub at: [bool; 16],
}

// A tick being settled: the jobs and grants so far, the cycles left, the jobs cut.
#[derive(Clone, Copy, Debug, PartialEq, Eq)]
pub struct Settling {
    pub jobs: Jobs,
    pub grants: [Cycles; 16],
    pub left: Cycles,
    pub cut: u64,
}

// A tick's releases being made: the jobs so far, the jobs counted as late.
#[derive(Clone, Copy, Debug, PartialEq, Eq)]
pub struct Releasing {
    pub jobs: Jobs,
    pub late: u64,
}

// Rule 3's choice: a task, numbered from 1, with its deadline, or nothing ready.
// Stays: an enum of its own in place of an Option, since document 01 asks that the chosen task is an enum: a task number with its deadline, or nothing ready.
#[derive(Clone, Copy, Debug, PartialEq, Eq)]
pub enum Choice {
    Task { number: u64, deadline: Ticks },
    Nothing,
}

// What now advises: the choice, and the speed for the whole tick.
#[derive(Clone, Copy, Debug, PartialEq, Eq)]
pub struct Advice {
    pub choice: Choice,
    pub speed: Speed,
}
