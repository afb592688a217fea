// Lines of numbers: the fields after a line's first, and the lines of a run's ticks.
ghost use Rattle.std.specs.Prelude.{◌≡◌, ◌+◌, ◌*◌, ◌≤◌, length};
ghost use Rattle.std.proofs.lemmas.List.Edits.{sets};
ghost use Rattle.decimal.specs.Decimal.{decimal_of};
ghost use Rattle.runfile.specs.RunFile.{most_run_ticks};
ghost use Rattle.printout.specs.Print.{field_of, fields_of, line_of};
ghost use Rattle.printout.specs.Parts.{row_lines};

use units::Ticks;

// The rows of a run's ticks, one after the other, so many numbers in each.
#[derive(Clone, Copy)]
pub(crate) struct Rows<'a> {
    pub(crate) numbers: &'a [u64],
    pub(crate) width: usize,
    pub(crate) ticks: Ticks,
    ghost there: { ticks.0 * width ≤ length numbers.now },
    ghost narrow: { width ≤ 18 },
    ghost few: { ticks.0 ≤ most_run_ticks },
}

// How many bytes the fields take, each with its comma.
#[tactic(auto, using(crate::proofs::Fields::all_fields))]
pub(crate) fn fields_length(values: &[u64]) -> usize
    requires { length values.now ≤ 1000 }
    ensures { result ≡ length (fields_of values.now) }
{
    let mut bytes = 0;
    for value in values {
        bytes += decimal::width(*value) + 1;
    }
    bytes
}

// Puts a field from a place on, its comma first, and tells the place after it. Most fields are one digit.
#[tactic(auto, using(crate::proofs::Fields::one_field))]
pub(crate) fn put_field(out: &mut [u8], at: usize, value: u64) -> usize
    requires { at + length (field_of value) ≤ length out.old }
    ensures value { result ≡ at + length (field_of value) }
    ensures out_after { out.new ≡ sets out.old at (field_of value) }
{
    out[at] = b',';
    if value < 10 {
        out[at + 1] = b'0' + value as u8;
        return at + 2;
    }
    decimal::put(out, at + 1, value)
}

// Puts the fields from a place on, and tells the place after them.
#[tactic(auto, using(crate::proofs::Fields::all_fields))]
pub(crate) fn put_fields(out: &mut [u8], at: usize, values: &[u64]) -> usize
    requires { at + length (fields_of values.now) ≤ length out.old }
    ensures value { result ≡ at + length (fields_of values.now) }
    ensures out_after { out.new ≡ sets out.old at (fields_of values.now) }
{
    let mut place = at;
    for value in values {
        place = put_field(out, place, *value);
    }
    place
}

// Puts the line of a tick from a place on, and tells the place after it.
#[tactic(auto, using(crate::proofs::RowLines::one_line))]
fn put_row(out: &mut [u8], at: usize, tick: u64, row: &[u64]) -> usize
    requires { at + length (line_of (decimal_of tick) row.now) ≤ length out.old }
    ensures value { result ≡ at + length (line_of (decimal_of tick) row.now) }
    ensures out_after { out.new ≡ sets out.old at (line_of (decimal_of tick) row.now) }
{
    let mut place = decimal::put(out, at, tick);
    place = put_fields(out, place, row);
    out[place] = b'\r';
    out[place + 1] = b'\n';
    place + 2
}

// How many bytes the lines of a run's ticks take.
#[tactic(auto, using(crate::proofs::RowLines::all_lines))]
pub(crate) fn rows_length(rows: &Rows) -> usize
    ensures { result ≡ length (row_lines rows.now.width rows.now.ticks.0 0 rows.now.numbers.now) }
{
    let mut bytes = 0;
    for t in 0..rows.ticks.0 {
        let at = t as usize * rows.width;
        bytes += decimal::width(t) + fields_length(&rows.numbers[at..at + rows.width]) + 2;
    }
    bytes
}

// Puts the lines of a run's ticks into a buffer from its first place on, and tells the place after them.
#[tactic(auto, using(crate::proofs::RowLines::all_lines))]
pub(crate) fn put_rows(out: &mut [u8], rows: &Rows) -> usize
    requires { length (row_lines rows.now.width rows.now.ticks.0 0 rows.now.numbers.now) ≤ length out.old }
    ensures value { result ≡ length (row_lines rows.now.width rows.now.ticks.0 0 rows.now.numbers.now) }
    ensures out_after { out.new ≡ sets out.old 0 (row_lines rows.now.width rows.now.ticks.0 0 rows.now.numbers.now) }
{
    let mut place = 0;
    for t in 0..rows.ticks.0 {
        let at = t as usize * rows.width;
        place = put_row(out, place, t, &rows.numbers[at..at + rows.width]);
    }
    place
}
