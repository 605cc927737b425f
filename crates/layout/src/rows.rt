// How the rows of a record are put.
ghost use Rattle.std.specs.Prelude.{◌≡◌};
ghost use Rattle.layout.specs.Row as specs;
ghost use Rattle.page.specs.Numerals.{decimal};
ghost use Rattle.page.specs.Page.{page, put};

use line::text::{Character, Field, view};
use page::{bits_of, put_byte, put_escaped, put_hex, put_signed, put_unsigned};
use row::{Row, Value};

// Whether a row is shown.
fn is_present(value: Value) -> bool
    ensures { result ≡ specs.present value }
{
    !matches!(value, Value::One(Character::Absent) | Value::Nothing)
}

// A character that the line doesn't reach shows as one blank.
fn put_field(out: &mut [u8], at: usize, line: &[u8], field: Field) -> usize
    ensures { page out.new result ≡ put (page out.old at) (specs.field_bytes line.now field) }
{
    put_escaped(out, at, view(line, b" ", field))
}

fn put_value(out: &mut [u8], at: usize, line: &[u8], value: Value) -> usize
    ensures { page out.new result ≡ put (page out.old at) (specs.value_bytes line.now value) }
{
    match value {
        Value::Unsigned(n) => put_unsigned(out, at, n),
        Value::Signed(n) => put_signed(out, at, n),
        Value::Real(x, _) => put_hex(out, at, bits_of(x)),
        Value::Factor(x) => put_hex(out, at, bits_of(x)),
        Value::Words(text) => put_field(out, at, line, Field::Words(text)),
        Value::One(character) => put_field(out, at, line, Field::One(character)),
        Value::Flag(flag) => put_byte(out, at, if flag { b'1' } else { b'0' }),
        Value::Nothing => at,
    }
}

// A column, which mostly has two digits: these are put without looking for the first one.
fn put_column(out: &mut [u8], at: usize, n: u64) -> usize
    ensures { page out.new result ≡ put (page out.old at) (decimal n) }
{
    if n < 10 || 99 < n {
        return put_unsigned(out, at, n);
    }
    let unit = put_byte(out, at, b'0' + (n / 10) as u8);
    put_byte(out, unit, b'0' + (n % 10) as u8)
}

// A row that isn't shown puts nothing.
fn put_row(out: &mut [u8], at: usize, line: &[u8], row: Row) -> usize
    ensures { page out.new result ≡ put (page out.old at) (specs.row_bytes line.now row) }
{
    let value = row.1;
    if is_present(value) {
        let column = put_byte(out, at, b'f');
        let equals = put_column(out, column, row.0 as u64);
        let start = put_byte(out, equals, b'=');
        let end = put_value(out, start, line, value);
        return put_byte(out, end, b'\n');
    }
    at
}

pub fn put_rows(out: &mut [u8], at: usize, line: &[u8], rows: [Row; 16]) -> usize
    ensures { page out.new result ≡ put (page out.old at) (specs.rows_bytes line.now rows) }
{
    let mut next = at;
    for row in &rows {
        next = put_row(out, next, line, *row);
    }
    next
}
