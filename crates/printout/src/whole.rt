// A run as text, whole: the lines of its ticks, and its last line after them.
ghost use Rattle.std.specs.Prelude.{◌≡◌, ◌≤◌, leb, length};
ghost use Rattle.words.specs.Words.{put_in};
ghost use Rattle.player.specs.Rows.{number_in};
ghost use Rattle.printout.specs.Print.{printed_of};
ghost use Rattle.printout.specs.Largest.{most_printed};
ghost use Rattle.printout.specs.Parts.{lines_of, rendered, Renderable};

use crate::lasts::Last;
use crate::rows::Rows;
use crate::{lasts, rows};
use refusals::Refusal;
use rules::State;

// Whether so many places have room for a run's lines. No run is longer than 1,500,200 bytes: only fewer places need a count.
#[tactic(auto, using(crate::proofs::Rendering::lines_length))]
pub(crate) fn room(places: usize, rows: &Rows, last: &Last) -> bool
    requires { length (lines_of rows.now.width rows.now.ticks.0 last.now rows.now.numbers.now) ≤ most_printed }
    ensures { result ≡ leb (length (lines_of rows.now.width rows.now.ticks.0 last.now rows.now.numbers.now)) places }
{
    if places >= 1500200 {
        return true;
    }
    let needed = rows::rows_length(rows) + lasts::last_length(last);
    needed <= places
}

// Puts the lines of a run that ended so into a buffer, from its first place on: all of them, or nothing where there is no room.
pub(crate) fn render(
    refusal: Option<Refusal>,
    state: State,
    rows: &[u64],
    out: &mut [u8],
) -> Option<usize>
    requires { Renderable (number_in refusal) state rows.now }
    ensures value { result ≡ printed_of (rendered (number_in refusal) state rows.now) (length out.old) }
    ensures out_after { out.new ≡ put_in out.old 0 (rendered (number_in refusal) state rows.now) }
{
    let rows = Rows {
        numbers: rows,
        width: state.tasks.count + 2,
        ticks: state.done,
    };
    let last = lasts::last_of(refusal, state);
    if !room(out.len(), &rows, &last) {
        return None;
    }
    let at = rows::put_rows(out, &rows);
    Some(lasts::put_last(out, at, &last))
}
