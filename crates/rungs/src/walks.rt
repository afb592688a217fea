// The walks over the speed places: below the count speeds and volts go up, and each place from the count on is unused.
ghost use Rattle.std.specs.Prelude.{◌≡◌, ◌≤◌};
ghost use Rattle.rules.specs.Limits.{most_speeds};
ghost use Rattle.rungs.specs.Parts.{climbing, zeros, zeros_from};

use rules::{Ladder, Tally};
use units::{Cycles, Speed, Volts};

// No. 5 and 6: whether speeds below the count rise and volts never fall, from 1 on. The last of each is then the greatest, so its limit is tested once.
#[tactic(auto, using(crate::proofs::ClimbLaws::climb_from, crate::proofs::ClimbLaws::climb_on, crate::proofs::ClimbLaws::climb_slow, crate::proofs::ClimbLaws::climb_faint, crate::proofs::ClimbLaws::climb_end, std::proofs::lemmas::Bool::Decides::nat_tests))]
pub(crate) fn climbs(ladder: &Ladder) -> bool
    requires { ladder.now.count ≤ most_speeds }
    ensures { result ≡ climbing ladder.now.count ladder.now.speeds ladder.now.volts 0 0 0 }
{
    let mut low = Speed(0);
    let mut faint = Volts(1);
    for i in 0..ladder.count {
        let speed = ladder.speeds[i];
        let tenths = ladder.volts[i];
        if speed <= low || tenths < faint {
            return false;
        }
        low = speed;
        faint = tenths;
    }
    low.0 <= 1000000 && faint.0 <= 100
}

// Whether a place holds no speed, no volts and no cycles counted.
#[tactic(auto, unfolding(crate::specs::Parts::zeros))]
pub(crate) fn unused_rung(speed: Speed, volts: Volts, counted: Cycles) -> bool
    ensures { result ≡ zeros speed volts counted }
{
    speed == Speed(0) && volts == Volts(0) && counted == Cycles(0)
}

// Whether every place from the count on is unused.
#[tactic(auto, using(crate::proofs::RungLaws::past_on, crate::proofs::RungLaws::past_stop, crate::proofs::RungLaws::past_end))]
pub(crate) fn past_unused(ladder: &Ladder, tally: &Tally) -> bool
    ensures { result ≡ zeros_from ladder.now.speeds ladder.now.volts tally.now.counts ladder.now.count }
{
    for i in ladder.count..8 {
        if !unused_rung(ladder.speeds[i], ladder.volts[i], tally.counts[i]) {
            return false;
        }
    }
    true
}
