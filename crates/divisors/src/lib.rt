// Greatest common divisors, and least common multiples under a cap.
#![tactic(auto)]

ghost use Rattle.divisors.specs.Divisors.{IsGcd, IsLcm, IsLcmOf, Capped, ZeroIn};

// The greatest common divisor, found by calling itself on the smaller pair: the second number falls.
pub fn gcd(a: u64, b: u64) -> u64
    ensures { IsGcd a b result }
{
    if b == 0 { a } else { gcd(b, a % b) }
}

// The least common multiple of two numbers, where it is at most the cap.
pub fn lcm(a: u64, b: u64, cap: u64) -> Option<u64>
    ensures { Capped cap (IsLcm a b) result }
{
    if a == 0 || b == 0 {
        return Some(0);
    }
    let q = a / gcd(a, b);
    if q > cap / b {
        return None;
    }
    Some(q * b)
}

// Whether a number of the list is 0.
fn has_zero(list: &[u64]) -> bool
    ensures { ZeroIn list.now result }
{
    list.contains(&0)
}

// The least common multiple of a list, where it is at most the cap: 1 for the empty list, 0 where a number is 0.
pub fn lcm_of(list: &[u64], cap: u64) -> Option<u64>
    ensures { Capped cap (IsLcmOf list.now) result }
{
    if has_zero(list) {
        return Some(0);
    }
    if cap == 0 {
        return None;
    }
    let mut acc = 1;
    for x in list {
        acc = lcm(acc, *x, cap)?;
    }
    Some(acc)
}
