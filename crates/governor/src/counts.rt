// Rule 6: the energy of the counts.
ghost use Rattle.std.specs.Prelude.{◌≡◌};
ghost use Rattle.rules.specs.Counting.{energy_sum};
ghost use Rattle.governor.specs.Parts.{Affordable};

use rules::{Ladder, Tally};

// Rule 6: the sum over speeds of count x volts x volts.
pub(crate) fn energy_of(ladder: &Ladder, tally: &Tally) -> u64
    requires { Affordable ladder.now tally.now }
    ensures { result ≡ energy_sum ladder.now tally.now }
{
    let mut sum = 0;
    for i in 0..ladder.count {
        let volts = ladder.volts[i];
        sum += tally.counts[i].0 * volts.0 * volts.0;
    }
    sum
}
