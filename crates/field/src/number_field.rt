// Number fields: `parse` and `parse_default` of lexer.rs, one reader for each sort.
ghost use Rattle.std.specs.Prelude.{◌≡◌, ltb, length, false};
ghost use Rattle.field.specs.Number as specs;

use crate::found::found_or;
use line::columns::{Columns, from_column};
use line::fault::{Fault, FaultKind, Faults, Got, Sort};
use number::whole::{read_signed, read_unsigned};
use real::wide::read_exponent;
use real::{Real, read_real, read_ten_thousandths};

// The line ends before the field's last column.
pub fn short(at: Columns) -> Fault
    ensures { result ≡ specs.short_at at }
{
    Fault::new(FaultKind::Short, at.start, at.width())
}

// The columns hold text of the wrong sort.
pub fn wrong(sort: Sort, at: Columns) -> Fault
    ensures { result ≡ specs.wrong_at sort at }
{
    Fault::new(FaultKind::Wrong(sort), at.start, at.width())
}

// Whether the line ends before the field's last column.
pub fn ends_before(line: &[u8], at: Columns) -> bool
    ensures { result ≡ ltb (length line.now) at.end }
{
    line.len() < at.end as usize
}

// The fault of a number field that isn't fine.
fn number_fault(line: &[u8], sort: Sort, at: Columns) -> Fault
    ensures { result ≡ specs.number_fault line.now at sort }
{
    if ends_before(line, at) {
        return short(at);
    }
    wrong(sort, at)
}

// Columns that the line doesn't reach are read as the empty part, which says no number. As a call of its own it keeps those small that come here
// only where a word says nothing.
#[inline(never)]
pub fn fine_unsigned(line: &[u8], at: Columns) -> Option<u64>
    ensures { result ≡ specs.fine_unsigned line.now at }
{
    read_unsigned(at.part(line))
}

pub fn unsigned(line: &[u8], at: Columns, faults: Faults) -> Got<u64>
    ensures { result ≡ specs.got_unsigned line.now at faults }
{
    found_or(fine_unsigned(line, at), 0, faults, || {
        number_fault(line, Sort::Unsigned, at)
    })
}

#[inline(never)]
pub fn fine_signed(line: &[u8], at: Columns) -> Option<i64>
    ensures { result ≡ specs.fine_signed line.now at }
{
    read_signed(at.part(line))
}

pub fn signed(line: &[u8], at: Columns, faults: Faults) -> Got<i64>
    ensures { result ≡ specs.got_signed line.now at faults }
{
    found_or(fine_signed(line, at), 0, faults, || {
        number_fault(line, Sort::Signed, at)
    })
}

// A plain decimal.
pub fn fine_real(line: &[u8], at: Columns) -> Option<Real>
    ensures { result ≡ specs.fine_real false line.now at }
{
    read_real(at.part(line))
}

// Nearly every real is a plain decimal, also in files with exponents, so an exponent is looked for only where the plain reading says nothing.
fn fine_real_with(line: &[u8], at: Columns, exponents: bool) -> Option<Real>
    ensures { result ≡ specs.fine_real exponents line.now at }
{
    if !exponents {
        return fine_real(line, at);
    }
    fine_real(line, at).or_else(|| read_exponent(at.part(line)))
}

// The places of a real are 0 where it is its default.
pub fn real(line: &[u8], at: Columns, default: f64, exponents: bool, faults: Faults) -> Got<Real>
    ensures { result ≡ specs.got_real exponents line.now at default faults }
{
    let unread = Real {
        value: default,
        places: 0,
    };
    found_or(fine_real_with(line, at, exponents), unread, faults, || {
        number_fault(line, Sort::Real, at)
    })
}

// One of ANISOU's six, whose columns hold an integer.
pub fn factor(line: &[u8], at: Columns, faults: Faults) -> Got<f64>
    ensures { result ≡ specs.got_factor line.now at faults }
{
    found_or(read_ten_thousandths(at.part(line)), 0.0, faults, || {
        number_fault(line, Sort::Signed, at)
    })
}

// The columns from one to the line's end, as far as 16 bits count.
fn rest_columns(line: &[u8], start: u16) -> Columns
    ensures { result ≡ specs.rest_columns line.now start }
{
    Columns::new(start, line.len().min(65535) as u16)
}

// U from a column to the line's end.
pub fn unsigned_from(line: &[u8], start: u16, faults: Faults) -> Got<u64>
    ensures { result ≡ specs.got_unsigned_from line.now start faults }
{
    found_or(
        read_unsigned(from_column(line, start as usize)),
        0,
        faults,
        || wrong(Sort::Unsigned, rest_columns(line, start)),
    )
}
