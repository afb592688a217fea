// The calls that read a text.
ghost use Rattle.std.specs.Prelude.{◌≡◌};

use decimal::Number;
use lines::{EndLine, PairLine, RunLine};
use refusals::Refusal;
use runfile::RunFile;

pub(crate) fn stands(text: &[u8], at: usize, word: &[u8]) -> (bool, bool)
    ensures { result.0 ≡ result.1 }
{
    (words::stands(text, at, word), words::stands(text, at, word))
}

pub(crate) fn field(text: &[u8], at: usize) -> (Option<Number>, Option<Number>)
    ensures { result.0 ≡ result.1 }
{
    (decimal::read(text, at), decimal::read(text, at))
}

pub(crate) fn width(n: u64) -> (usize, usize)
    ensures { result.0 ≡ result.1 }
{
    (decimal::width(n), decimal::width(n))
}

pub(crate) fn line_end(text: &[u8], at: usize) -> (Option<usize>, Option<usize>)
    ensures { result.0 ≡ result.1 }
{
    (lines::line_end(text, at), lines::line_end(text, at))
}

pub(crate) fn number_comma(text: &[u8], at: usize) -> (Option<Number>, Option<Number>)
    ensures { result.0 ≡ result.1 }
{
    (lines::number_comma(text, at), lines::number_comma(text, at))
}

pub(crate) fn number_end(text: &[u8], at: usize) -> (Option<Number>, Option<Number>)
    ensures { result.0 ≡ result.1 }
{
    (lines::number_end(text, at), lines::number_end(text, at))
}

pub(crate) fn pair_line(text: &[u8], at: usize) -> (Option<PairLine>, Option<PairLine>)
    ensures { result.0 ≡ result.1 }
{
    (lines::pair_line(text, at), lines::pair_line(text, at))
}

pub(crate) fn end_line(text: &[u8], at: usize) -> (Option<EndLine>, Option<EndLine>)
    ensures { result.0 ≡ result.1 }
{
    (lines::end_line(text, at), lines::end_line(text, at))
}

pub(crate) fn run_line(text: &[u8], at: usize) -> (Option<RunLine>, Option<RunLine>)
    ensures { result.0 ≡ result.1 }
{
    (lines::run_line(text, at), lines::run_line(text, at))
}

pub(crate) fn run_file(text: &[u8]) -> (Result<RunFile, Refusal>, Result<RunFile, Refusal>)
    ensures { result.0 ≡ result.1 }
{
    (runfile::read(text), runfile::read(text))
}
