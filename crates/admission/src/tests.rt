// The tests of start's table in its order: numbers 1 to 6 from the lists alone, and rule 7 once the great period is known.
ghost use Rattle.std.specs.Prelude.{◌≡◌, ◌*◌, ◌<◌, leb, length};
ghost use Rattle.rules.specs.State.{top_of};
ghost use Rattle.rules.specs.Admission.{full_load};
ghost use Rattle.admission.specs.Parts.{Formed, Summable};

use crate::lists;
use refusals::Refusal;
use units::{Speed, Ticks};

// The refusal of the smallest of 1 to 6 that applies, where one does.
#[tactic(auto, using(crate::proofs::Rows::rows), unfolding(rules::specs::Numbers::speeds_rise, rules::specs::Numbers::volts_never_fall))]
pub(crate) fn form_number(
    periods: &[u64],
    reserves: &[u64],
    speeds: &[u64],
    volts: &[u64],
) -> Result<(), Refusal>
    ensures { Formed periods.now reserves.now speeds.now volts.now result }
{
    if !lists::counts_match(periods, reserves, 16) {
        return Err(Refusal::Tasks);
    }
    if !lists::counts_match(speeds, volts, 8) {
        return Err(Refusal::Speeds);
    }
    if !lists::all_allowed(periods, 1000000) {
        return Err(Refusal::Period);
    }
    if !lists::all_allowed(reserves, 1000000000) {
        return Err(Refusal::Reserve);
    }
    if !lists::climbs(speeds, 1000000, 1) {
        return Err(Refusal::Speed);
    }
    if !lists::climbs(volts, 100, 0) {
        return Err(Refusal::Volts);
    }
    Ok(())
}

// Rule 7: whether the top speed, the last of the list, carries the sum of reserve x (H / P).
#[tactic(auto, unfolding(crate::specs::Parts::full_load_of, rules::specs::State::top_of))]
pub(crate) fn admits(periods: &[u64], reserves: &[u64], speeds: &[u64], great: Ticks) -> bool
    requires { Summable periods.now reserves.now great × (0 < length speeds.now) }
    ensures { result ≡ leb (full_load great.0 periods.now reserves.now) (top_of speeds.now * great.0) }
{
    let top = Speed(speeds[speeds.len() - 1]);
    units::carries(top, great, lists::full_load(periods, reserves, great))
}
