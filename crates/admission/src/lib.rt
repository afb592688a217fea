// Whether a table is one that start takes: refusals 1 to 8 of document 01, and the great period.
#![tactic(auto)]

mod lists;
mod tests;

ghost use Rattle.std.specs.Prelude.{◌≡◌};
ghost use Rattle.admission.specs.Verdict.{verdict_of, judged};

use refusals::Refusal;
use units::Ticks;

// A table's great period, or the refusal of the smallest number from 1 to 8 that applies.
pub fn judge(
    periods: &[u64],
    reserves: &[u64],
    speeds: &[u64],
    volts: &[u64],
) -> Result<Ticks, Refusal>
    ensures { judged result ≡ verdict_of periods.now reserves.now speeds.now volts.now }
{
    tests::form_number(periods, reserves, speeds, volts)?;
    let great = Ticks(divisors::lcm_of(periods, 1000000).ok_or(Refusal::GreatPeriod)?);
    if !tests::admits(periods, reserves, speeds, great) {
        return Err(Refusal::NotAdmitted);
    }
    Ok(great)
}
