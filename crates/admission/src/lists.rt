// The tests of numbers 1 to 6 on a lent list, and the sum of rule 7.
ghost use Rattle.std.specs.Prelude.{◌≡◌, ◌≤◌};
ghost use Rattle.std.specs.List.{list_all};
ghost use Rattle.rules.specs.Limits.{up_to_most};
ghost use Rattle.rules.specs.Numbers.{same_count, climbs_from};
ghost use Rattle.admission.specs.Parts.{Summable, full_load_of};

use units::{Cycles, Ticks};

// No. 1, 2: whether a list has from 1 to `most` entries, and a second list as many.
#[tactic(auto, unfolding(rules::specs::Numbers::same_count, rules::specs::Limits::up_to_most))]
pub(crate) fn counts_match(first: &[u64], second: &[u64], most: usize) -> bool
    ensures { result ≡ same_count most first.now second.now }
{
    (1..=most).contains(&first.len()) && second.len() == first.len()
}

// No. 3, 4: whether each number of a list is from 1 to `most`.
#[tactic(auto, unfolding(rules::specs::Limits::up_to_most))]
pub(crate) fn all_allowed(list: &[u64], most: u64) -> bool
    ensures { result ≡ list_all (up_to_most most) list.now }
{
    list.iter().all(|x| (1..=most).contains(x))
}

// No. 5, 6: whether each number of a list is from 1 to `most` and at least `gap` above the one before.
pub(crate) fn climbs(list: &[u64], most: u64, gap: u64) -> bool
    requires { (most ≤ 1000000) × (gap ≤ 1) }
    ensures { result ≡ climbs_from most gap 0 list.now }
{
    let mut before = 0;
    for x in list {
        if *x < 1 || most < *x || *x < before + gap {
            return false;
        }
        before = *x;
    }
    true
}

// Rule 7: the sum of reserve x (H / P).
pub(crate) fn full_load(periods: &[u64], reserves: &[u64], great: Ticks) -> Cycles
    requires { Summable periods.now reserves.now great }
    ensures { result ≡ full_load_of periods.now reserves.now great }
{
    let mut sum = Cycles(0);
    for (period, reserve) in periods.iter().zip(reserves) {
        sum.0 += *reserve * (great.0 / *period);
    }
    sum
}
