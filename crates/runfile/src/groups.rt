// The groups of a run file's lines.
ghost use Rattle.std.specs.Prelude.{◌≡◌, ◌≤◌, ltb};
ghost use Rattle.runfile.specs.Groups.{most_task_lines, most_end_lines, no_pairs, no_ends, pairs_from, ends_from, end_good};
ghost use Rattle.std.specs.List.{list_all};

use crate::{End, Ends, Pairs};
use arrayvec::ArrayVec;
use lines::EndLine;
use units::Ticks;

// A group of task or speed lines and the place of the line after it.
#[derive(Drop)]
pub(crate) struct PairsRead {
    pub(crate) pairs: Pairs,
    pub(crate) next: usize,
}

// The end lines and the place of the line after them.
#[derive(Drop)]
pub(crate) struct EndsRead {
    pub(crate) ends: Ends,
    pub(crate) next: usize,
}

// Task lines or speed lines from a place on: as long as a line begins with the word, its two numbers. None where a line is wrong.
pub(crate) fn pairs(text: &[u8], at: usize, word: &[u8], most: usize) -> Option<PairsRead>
    requires { most ≤ most_task_lines }
    ensures { result ≡ pairs_from word.now text.now most at no_pairs }
{
    let mut firsts = ArrayVec::new();
    let mut seconds = ArrayVec::new();
    let mut next = at;
    while words::stands(text, next, word) {
        if firsts.len() >= most {
            return None;
        }
        let line = lines::pair_line(text, next + word.len())?;
        firsts.push(line.first);
        seconds.push(line.second);
        next = line.next;
    }
    let pairs = Pairs { firsts, seconds };
    Some(PairsRead { pairs, next })
}

// End lines from a place on, for so many tasks: they rise strictly by tick and then task, name a task that exists and at least 1 cycle.
pub(crate) fn ends(text: &[u8], at: usize, known: usize) -> Option<EndsRead>
    ensures { result ≡ ends_from text.now known most_end_lines at 0 0 no_ends }
{
    let mut ends = Ends::new();
    let mut next = at;
    let mut before = EndLine::default();
    while words::stands(text, next, b"end,") {
        if ends.len() >= 1000 {
            return None;
        }
        let line = lines::end_line(text, next + 4)?;
        if !good_end(known, before, line) {
            return None;
        }
        ends.add(End {
            tick: line.tick,
            task: line.task,
            cycles: line.cycles,
        });
        next = line.next;
        before = line;
    }
    Some(EndsRead { ends, next })
}

// Whether an end line rises above the one before, names a task that exists and at least 1 cycle.
#[tactic(auto, unfolding(crate::specs::Groups::end_good))]
pub(crate) fn good_end(known: usize, before: EndLine, line: EndLine) -> bool
    ensures { result ≡ end_good known before.tick.0 before.task line.tick.0 line.task line.cycles.0 }
{
    let rises = line.tick > before.tick || (line.tick == before.tick && line.task > before.task);
    rises && line.task >= 1 && line.task <= known as u64 && line.cycles.0 >= 1
}

// Whether every end line's tick is below the run's ticks.
pub(crate) fn closes(ends: &[End], run: Ticks) -> bool
    ensures { result ≡ list_all (λ e. ltb e.tick.0 run.0) ends.now }
{
    ends.iter().all(|end| end.tick < run)
}
