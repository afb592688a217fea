// Numbers as text: a field of digits read, and a number written in decimal.
#![tactic(auto)]

ghost use Rattle.std.specs.Prelude.{◌≡◌, length, take_while};
ghost use Rattle.std.specs.Char.{is_ascii_digit};
ghost use Rattle.words.specs.Words.{put_in, place_after};
ghost use Rattle.decimal.specs.Decimal.{digits, no_leading_zero, field_at, decimal_of, DigitsOnly, number_of};

// A field's number and the place after its last digit.
#[derive(Clone, Copy, Debug, Default, PartialEq, Eq)]
pub struct Number {
    pub value: u64,
    pub next: usize,
}

// The field of digits at a place of a text: no sign, no leading zero except 0 itself, and it fits 64 bits. No field has more than 20 digits, so at most 21 are looked at.
#[tactic(auto, using(crate::proofs::Reading::digits_of_part, crate::proofs::Spelling::digits_twice, crate::proofs::Reading::reads_past))]
pub fn read(text: &[u8], at: usize) -> Option<Number>
    ensures { result ≡ field_at text.now at }
{
    let rest = text.get(at..)?;
    let front = &rest[..rest.len().min(21)];
    let digits = &front[..digit_count(front)];
    if !no_leading_zero(digits) {
        return None;
    }
    let value = number_of(digits)?;
    Some(Number {
        value,
        next: at + digits.len(),
    })
}

// There is a digit, and the first is not `0` where there are more.
#[tactic(auto, using(crate::proofs::Reading::no_digit, crate::proofs::Reading::lone_digit, crate::proofs::Reading::more_digits))]
fn no_leading_zero(digits: &[u8]) -> bool
    ensures { result ≡ no_leading_zero digits.now }
{
    match digits {
        [] => false,
        [_] => true,
        [first, ..] => *first != b'0',
    }
}

// How many digits a text begins with.
fn digit_count(text: &[u8]) -> usize
    ensures { result ≡ length (take_while is_ascii_digit text.now) }
{
    text.iter().take_while(|b| b.is_ascii_digit()).count()
}

// The number that digits stand for, where it fits 64 bits. The first digit needs no check.
#[tactic(auto, using(crate::proofs::Counting::none_counted, crate::proofs::Counting::first_counted, crate::proofs::Counting::only_after, crate::proofs::Counting::after_first, crate::proofs::Counting::digit_ahead, crate::proofs::Counting::only_ahead, crate::proofs::Counting::value_ahead, crate::proofs::Counting::over_counted, crate::proofs::Counting::all_counted))]
fn number_of(digits: &[u8]) -> Option<u64>
    requires { DigitsOnly digits.now }
    ensures { result ≡ number_of digits.now }
{
    let [first, more @ ..] = digits else {
        return Some(0);
    };
    let mut value = u64::from(*first - b'0');
    for digit in more {
        value = value
            .checked_mul(10)?
            .checked_add(u64::from(*digit - b'0'))?;
    }
    Some(value)
}

// How many digits a number has in decimal.
#[tactic(auto, using(crate::proofs::Written::digits_by_power))]
pub fn width(n: u64) -> usize
    ensures { result ≡ length (decimal_of n) }
{
    n.max(1).ilog10() as usize + 1
}

// Puts a number in decimal into a buffer from a place on, and tells the place after it; where it does not fit, nothing is written and the answer is the place itself.
#[tactic(auto, using(words::proofs::Stores::put_fits, words::proofs::Stores::put_short, words::proofs::Stores::place_fits, words::proofs::Stores::place_short))]
pub fn put(out: &mut [u8], at: usize, n: u64) -> usize
    ensures value { result ≡ place_after out.old at (decimal_of n) }
    ensures out_after { out.new ≡ put_in out.old at (decimal_of n) }
{
    let digits = width(n);
    if at > out.len() || digits > out.len() - at {
        return at;
    }
    let after = at + digits;
    let mut rest = n;
    for i in (at..after).rev() {
        out[i] = b'0' + (rest % 10) as u8;
        rest /= 10;
    }
    after
}
