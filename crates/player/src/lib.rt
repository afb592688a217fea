// The player: a run file played with the governor's calls. What a run is stands in specs/Plays; rendering it is left to others.
#![tactic(auto)]

mod ticks;

ghost use Rattle.std.specs.Prelude.{◌≡◌, length};
ghost use Rattle.player.specs.Rows.{played_by, played_of, rows_in};
ghost use Rattle.player.specs.Parts.{unplayed_as};

use refusals::Refusal;
use rules::State;

// A run played: its refusal, if it was refused; and the final state or the state that the refusal was met in, the all-zero state where nothing was played.
#[derive(Drop)]
pub struct Played {
    pub refusal: Option<Refusal>,
    pub state: State,
}

// Plays a text as a run file into a lent list of rows: for each tick its speed, the grants of tasks 1 to n and the idle cycles. None: there is no room for its rows, and nothing was played.
pub fn play(text: &[u8], rows: &mut [u64]) -> Option<Played>
    ensures { (played_by result ≡ played_of text.now (length rows.old))
        × (rows.new ≡ rows_in text.now rows.old) }
{
    let file = match runfile::read(text) {
        Ok(file) => file,
        Err(refusal) => return Some(unplayed(refusal)),
    };
    let started = governor::start(
        file.tasks.firsts.as_slice(),
        file.tasks.seconds.as_slice(),
        file.speeds.firsts.as_slice(),
        file.speeds.seconds.as_slice(),
    );
    let state = match started {
        Ok(state) => state,
        Err(refusal) => return Some(unplayed(refusal)),
    };
    if rows.len() < file.ticks.0 as usize * (file.tasks.firsts.len() + 2) {
        return None;
    }
    Some(ticks::play_run(state, file.ends.as_slice(), file.ticks, rows))
}

// Nothing played: why, and the all-zero state.
fn unplayed(refusal: Refusal) -> Played
    ensures { result ≡ unplayed_as refusal }
{
    Played {
        refusal: Some(refusal),
        state: State::default(),
    }
}
