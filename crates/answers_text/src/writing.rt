// The calls that write into a lent list. Two lists that are equal before the calls are equal after them.
ghost use Rattle.std.specs.Prelude.{◌≡◌};

use player::Played;

pub(crate) fn put_word(out: &mut [u8], again: &mut [u8], at: usize, word: &[u8]) -> (usize, usize)
    requires { out.old ≡ again.old }
    ensures { (result.0 ≡ result.1) × (out.new ≡ again.new) }
{
    (words::put(out, at, word), words::put(again, at, word))
}

pub(crate) fn put_number(out: &mut [u8], again: &mut [u8], at: usize, n: u64) -> (usize, usize)
    requires { out.old ≡ again.old }
    ensures { (result.0 ≡ result.1) × (out.new ≡ again.new) }
{
    (decimal::put(out, at, n), decimal::put(again, at, n))
}

#[tactic(auto, using(player::proofs::Answered::played_one))]
pub(crate) fn play(
    text: &[u8],
    rows: &mut [u64],
    again: &mut [u64],
) -> (Option<Played>, Option<Played>)
    requires { rows.old ≡ again.old }
    ensures { (result.0 ≡ result.1) × (rows.new ≡ again.new) }
{
    (player::play(text, rows), player::play(text, again))
}

pub(crate) fn print(text: &[u8], out: &mut [u8], again: &mut [u8]) -> (Option<usize>, Option<usize>)
    requires { out.old ≡ again.old }
    ensures { (result.0 ≡ result.1) × (out.new ≡ again.new) }
{
    (printout::print(text, out), printout::print(text, again))
}
