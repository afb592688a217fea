// The speed places of a state: speeds that rise and volts that never fall, in their ranges, and zeros past the count; and the top speed.
#![tactic(auto)]

mod walks;

ghost use Rattle.std.specs.Prelude.{◌≡◌};
ghost use Rattle.rungs.specs.Rungs.{ladder_right, top_in};

use rules::{Ladder, Tally};
use units::Speed;

// From 1 to 8 speeds that climb, and zeros past them.
#[tactic(auto, using(crate::proofs::RungLaws::ladder_is, std::proofs::lemmas::Bool::Decides::nat_tests), unfolding(rules::specs::Limits::up_to_most))]
pub fn ladder_right(ladder: &Ladder, tally: &Tally) -> bool
    ensures { result ≡ ladder_right ladder.now tally.now }
{
    (1..=8).contains(&ladder.count) && walks::climbs(ladder) && walks::past_unused(ladder, tally)
}

// The top speed: the last of the speeds listed, of at most 8; 0 where none is listed.
#[tactic(auto, using(crate::proofs::TopLaws::top_none, crate::proofs::TopLaws::top_last))]
pub fn top_of(ladder: &Ladder) -> Speed
    ensures { result ≡ top_in ladder.now }
{
    if ladder.count < 1 {
        return Speed(0);
    }
    ladder.speeds[ladder.count.min(8) - 1]
}
