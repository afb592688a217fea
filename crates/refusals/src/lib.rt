// Why a call refuses: the numbers that a caller may see, as an enum.
#![tactic(auto)]

ghost use Rattle.std.specs.Prelude.{◌≡◌};
ghost use Rattle.refusals.specs.Refusals.{number_of};

// A refusal under its number, 1 to 14 of document 01. The smallest that applies is given.
#[derive(Clone, Copy, Debug, PartialEq, Eq, PartialOrd, Ord, Hash)]
pub enum Refusal {
    // start: 0 or more than 16 periods, or as many reserves not given
    Tasks = 1,
    // start: 0 or more than 8 speeds, or as many volts not given
    Speeds = 2,
    // start: a period outside its range
    Period = 3,
    // start: a reserve outside its range
    Reserve = 4,
    // start: a speed outside its range or not above the one before
    Speed = 5,
    // start: a volt value outside its range or below the one before
    Volts = 6,
    // start: H above 1,000,000
    GreatPeriod = 7,
    // start: not admitted by rule 7
    NotAdmitted = 8,
    // now, tick, energy: the state is unsound
    Unsound = 9,
    // now, tick: 1,000,000,000 ticks are done
    RunDone = 10,
    // tick: the report or the grants list is not as long as the task count
    Length = 11,
    // now, tick: no listed speed carries the load
    NoSpeed = 12,
    // tick: an entry breaks rule 4
    Entry = 13,
    // bench: the text is not a run file
    NoRunFile = 14,
}

// A refusal's number.
impl From<Refusal> for u64 {
    ghost from_gives = { λ refusal number. number ≡ number_of refusal };

    fn from(refusal: Refusal) -> u64 {
        refusal as u64
    }
}
