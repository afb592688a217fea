// The calls of divisors, whose contracts state a property: one number only has it.
ghost use Rattle.std.specs.Prelude.{◌≡◌};

pub(crate) fn gcd(a: u64, b: u64) -> (u64, u64)
    ensures { result.0 ≡ result.1 }
{
    (divisors::gcd(a, b), divisors::gcd(a, b))
}

pub(crate) fn lcm(a: u64, b: u64, cap: u64) -> (Option<u64>, Option<u64>)
    ensures { result.0 ≡ result.1 }
{
    (divisors::lcm(a, b, cap), divisors::lcm(a, b, cap))
}

pub(crate) fn lcm_of(list: &[u64], cap: u64) -> (Option<u64>, Option<u64>)
    ensures { result.0 ≡ result.1 }
{
    (divisors::lcm_of(list, cap), divisors::lcm_of(list, cap))
}
