// The lines of a run file: numbers that commas part, and a line's end. Each is read at a place of the text.
#![tactic(auto)]

ghost use Rattle.std.specs.Prelude.{◌≡◌};
ghost use Rattle.lines.specs.Lines.{line_end, number_comma, number_end, pair_at, end_at, run_at};

use decimal::Number;
use units::{Cycles, Ticks};

// The two numbers of a task line or a speed line, and the place of the next line. What they count is said by the line's word.
#[derive(Clone, Copy, Debug, Default, PartialEq, Eq)]
pub struct PairLine {
    pub first: u64,
    pub second: u64,
    pub next: usize,
}

// The tick, the task and the cycles of an end line, and the place of the next line.
#[derive(Clone, Copy, Debug, Default, PartialEq, Eq)]
pub struct EndLine {
    pub tick: Ticks,
    pub task: u64,
    pub cycles: Cycles,
    pub next: usize,
}

// The ticks of the run line, and the place after it.
#[derive(Clone, Copy, Debug, Default, PartialEq, Eq)]
pub struct RunLine {
    pub ticks: Ticks,
    pub next: usize,
}

// Where a line ends at a place, the place of the next line: past LF, past CR LF, or the end of the text.
#[tactic(auto, using(crate::proofs::Breaks::end_of_text, crate::proofs::Breaks::lf_stands, crate::proofs::Breaks::cr_lf_stands, crate::proofs::Breaks::none_stands, crate::proofs::Breaks::pair_within))]
pub fn line_end(text: &[u8], at: usize) -> Option<usize>
    ensures { result ≡ line_end text.now at }
{
    if at >= text.len() {
        Some(at)
    } else if words::stands(text, at, b"\n") {
        Some(at + 1)
    } else if words::stands(text, at, b"\r\n") {
        Some(at + 2)
    } else {
        None
    }
}

// A number and the comma after it. A field's answer is taken apart with let .. else, as document 01 asks, here and where a line's end follows.
#[tactic(auto, using(crate::proofs::Breaks::byte_within, crate::proofs::Chains::comma_none, crate::proofs::Chains::comma_missing, crate::proofs::Chains::comma_there))]
pub fn number_comma(text: &[u8], at: usize) -> Option<Number>
    ensures { result ≡ number_comma text.now at }
{
    let Some(Number { value, next }) = decimal::read(text, at) else {
        return None;
    };
    if !words::stands(text, next, b",") {
        return None;
    }
    Some(Number {
        value,
        next: next + 1,
    })
}

// A number and the line's end after it.
#[tactic(auto, using(crate::proofs::Chains::end_none, crate::proofs::Chains::end_missing, crate::proofs::Chains::end_there))]
pub fn number_end(text: &[u8], at: usize) -> Option<Number>
    ensures { result ≡ number_end text.now at }
{
    let Some(Number { value, next }) = decimal::read(text, at) else {
        return None;
    };
    let next = line_end(text, next)?;
    Some(Number { value, next })
}

// The two numbers of a task line or a speed line, past its word.
#[tactic(auto, using(crate::proofs::Chains::pair_none, crate::proofs::Chains::pair_half, crate::proofs::Chains::pair_whole))]
pub fn pair_line(text: &[u8], at: usize) -> Option<PairLine>
    ensures { result ≡ pair_at text.now at }
{
    let Number { value: first, next } = number_comma(text, at)?;
    let Number {
        value: second,
        next,
    } = number_end(text, next)?;
    Some(PairLine {
        first,
        second,
        next,
    })
}

// The three numbers of an end line, past its word.
#[tactic(auto, using(crate::proofs::Chains::tick_none, crate::proofs::Chains::task_none, crate::proofs::Chains::cycles_none, crate::proofs::Chains::end_whole))]
pub fn end_line(text: &[u8], at: usize) -> Option<EndLine>
    ensures { result ≡ end_at text.now at }
{
    let Number { value: tick, next } = number_comma(text, at)?;
    let Number { value: task, next } = number_comma(text, next)?;
    let Number {
        value: cycles,
        next,
    } = number_end(text, next)?;
    Some(EndLine {
        tick: Ticks(tick),
        task,
        cycles: Cycles(cycles),
        next,
    })
}

// The run line at a place: its word, and its one number.
#[tactic(auto, using(crate::proofs::Chains::run_none, crate::proofs::Chains::run_empty, crate::proofs::Chains::run_there, crate::proofs::Chains::run_within))]
pub fn run_line(text: &[u8], at: usize) -> Option<RunLine>
    ensures { result ≡ run_at text.now at }
{
    if !words::stands(text, at, b"run,") {
        return None;
    }
    let Number { value: ticks, next } = number_end(text, at + 4)?;
    Some(RunLine {
        ticks: Ticks(ticks),
        next,
    })
}
