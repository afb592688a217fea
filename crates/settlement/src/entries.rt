// The report's entries, and those that must be 0.
ghost use Rattle.std.specs.Prelude.{◌≡◌, get_or};
ghost use Rattle.settlement.specs.Parts.{rest_zero};

use rules::{Jobs, Ready};

// A task's entry; 0 past the report's end.
pub(crate) fn entry_at(report: &[u64], i: usize) -> u64
    ensures { result ≡ get_or report.now i 0 }
{
    report.get(i).copied().unwrap_or(0)
}

// Rule 4: whether the entry is 0 of each of the first jobs that is over already, or still waits when nothing is left.
pub(crate) fn rest_zero(jobs: &Jobs, ready: &Ready, count: usize, report: &[u64]) -> bool
    ensures { result ≡ rest_zero jobs.now ready.now count report.now }
{
    (0..count.min(16)).all(|i| !(jobs.over[i] || ready.at[i]) || entry_at(report, i) == 0)
}
