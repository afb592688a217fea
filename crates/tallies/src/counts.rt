// The walk over the counts of cycles, against the most that they may come to.
ghost use Rattle.std.specs.Prelude.{◌≡◌, ◌+◌, leb};
ghost use Rattle.tallies.specs.Parts.{cycles_of};

use units::Cycles;

// Whether counts and idle together are at most so many cycles: each is taken off what is left of those, so no sum is made.
pub(crate) fn cycles_within(counts: &[Cycles], idle: Cycles, most: Cycles) -> bool
    ensures { result ≡ leb (cycles_of counts.now + idle.0) most.0 }
{
    let mut left = most.0;
    for counted in counts {
        let Some(rest) = left.checked_sub(counted.0) else {
            return false;
        };
        left = rest;
    }
    idle.0 <= left
}
