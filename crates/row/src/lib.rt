// A row of a listing as data: a field's first column, and what stands there.
#![tactic(auto)]

ghost use Rattle.std.specs.Prelude.{◌≡◌};
ghost use Rattle.row.specs.Rows.{rows_of};

use line::text::{Character, Text};

// What stands in a field.
#[derive(Clone, Copy)]
pub enum Value {
    Unsigned(u64),
    Signed(i64),
    // A real with the places that it was written in, and one that was written as an integer.
    Real(f64, u8),
    Factor(f64),
    Words(Text),
    One(Character),
    Flag(bool),
    // A part of the record that the line doesn't have.
    Nothing,
}

// A field's first column, and what stands there.
#[derive(Clone, Copy)]
pub struct Row(pub u16, pub Value);

impl Row {
    pub const NONE: Row = Row(0, Value::Nothing);
}

// The rows of a record, which has sixteen fields at most. Rows that show nothing fill the list up.
#[derive(Clone, Copy)]
pub struct Rows {
    pub list: [Row; 16],
}

impl Rows {
    pub const NONE: Rows = Rows {
        list: [Row::NONE; 16],
    };

    // The rows given, and behind them those that show nothing. Rows behind the sixteenth are left out.
    // It is compiled into its callers, where the number of rows is known.
    #[inline(always)]
    pub fn of(rows: &[Row]) -> Rows
        ensures { result ≡ rows_of rows.now }
    {
        let mut list = [Row::NONE; 16];
        let shown = rows.len().min(16);
        list[..shown].copy_from_slice(&rows[..shown]);
        Rows { list }
    }
}
