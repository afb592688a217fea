// What the calls answer, in plain numbers.
ghost use Rattle.std.specs.Prelude.{◌≡◌, Ok};
ghost use Rattle.rules.specs.Calls.{started_by, told_by, used_by};
ghost use Rattle.piszczalin.specs.Plain.{plain_of, plain_used};
ghost use Rattle.piszczalin.specs.Calls.{plain_started};
ghost use Rattle.piszczalin.specs.Parts.{number_by};

use crate::{PlainStarted, PlainState, PlainTold, PlainUsed};
use refusals::Refusal;
use rules::{Advice, Choice, State};
use units::{Speed, Ticks};

// start's answer: 0 and the fresh state, or a refusal's number and the all-zero state.
impl From<Result<State, Refusal>> for PlainStarted {
    ghost from_gives = { λ answer plain. plain ≡ plain_started (started_by answer) };

    #[tactic(auto, unfolding(crate::specs::Calls::plain_started, rules::specs::Calls::started_by))]
    fn from(started: Result<State, Refusal>) -> PlainStarted {
        match started {
            Ok(state) => {
                let state = PlainState::from(state);
                PlainStarted { number: 0, state }
            }
            Err(refusal) => {
                let state = PlainState::from(State::default());
                PlainStarted {
                    number: refusal.into(),
                    state,
                }
            }
        }
    }
}

// now's answer: 0 and the advice, or a refusal's number and zeros.
impl From<Result<Advice, Refusal>> for PlainTold {
    ghost from_gives = { λ answer plain. plain ≡ plain_of (told_by answer) };

    #[tactic(auto, unfolding(crate::specs::Plain::plain_of, rules::specs::Calls::told_by, rules::specs::Choice::task_of, rules::specs::Choice::due_of))]
    fn from(told: Result<Advice, Refusal>) -> PlainTold {
        match told {
            Ok(advice) => plainly(advice),
            Err(refusal) => PlainTold {
                number: refusal.into(),
                task: 0,
                deadline: Ticks(0),
                speed: Speed(0),
            },
        }
    }
}

// An advice in plain numbers.
#[tactic(auto, unfolding(crate::specs::Plain::plain_of, rules::specs::Calls::told_by, rules::specs::Choice::task_of, rules::specs::Choice::due_of))]
fn plainly(advice: Advice) -> PlainTold
    ensures { result ≡ plain_of (told_by (Ok advice)) }
{
    let (task, deadline) = match advice.choice {
        Choice::Task { number, deadline } => (number, deadline),
        Choice::Nothing => (0, Ticks(0)),
    };
    PlainTold {
        number: 0,
        task,
        deadline,
        speed: advice.speed,
    }
}

// energy's answer: 0 and the energy, or a refusal's number and 0.
impl From<Result<u64, Refusal>> for PlainUsed {
    ghost from_gives = { λ answer plain. plain ≡ plain_used (used_by answer) };

    #[tactic(auto, unfolding(crate::specs::Plain::plain_used, rules::specs::Calls::used_by))]
    fn from(used: Result<u64, Refusal>) -> PlainUsed {
        match used {
            Ok(energy) => PlainUsed { number: 0, energy },
            Err(refusal) => PlainUsed {
                number: refusal.into(),
                energy: 0,
            },
        }
    }
}

// tick's number: 0, or a refusal's.
pub(crate) fn number(ticked: Result<(), Refusal>) -> u64
    ensures { result ≡ number_by ticked }
{
    match ticked {
        Ok(()) => 0,
        Err(refusal) => refusal.into(),
    }
}
