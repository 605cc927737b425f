// SCALEn, ORIGXn and MTRIXn, n less one being the row.
ghost use Rattle.std.specs.Prelude.{◌≡◌};

use line::columns::Columns;

// A row of a transformation: four doubles.
#[derive(Clone, Copy)]
pub struct Transformation {
    pub a: f64,
    pub b: f64,
    pub c: f64,
    pub d: f64,
}

impl Transformation {
    pub const A: Columns = Columns { start: 10, end: 20 };

    pub const B: Columns = Columns { start: 20, end: 30 };

    pub const C: Columns = Columns { start: 30, end: 40 };

    pub const D: Columns = Columns { start: 45, end: 55 };

    pub fn new(a: f64, b: f64, c: f64, d: f64) -> Self
        ensures { result ≡ record { a = a; b = b; c = c; d = d } }
    {
        Transformation { a, b, c, d }
    }
}

// How many digits stood behind the point of each, 0 where it is its default. They stand beside the values, since those who write a row or move
// a position take the values alone.
#[derive(Clone, Copy)]
pub struct RowPlaces {
    pub a: u8,
    pub b: u8,
    pub c: u8,
    pub d: u8,
}

// A SCALEn or an ORIGXn: both hold a row of a transformation, in the same columns.
#[derive(Clone, Copy)]
pub struct NumberedRow {
    pub row: usize,
    pub values: Transformation,
    pub places: RowPlaces,
}

impl NumberedRow {
    pub fn new(row: usize, values: Transformation, places: RowPlaces) -> Self
        ensures { result ≡ record { row = row; values = values; places = places } }
    {
        NumberedRow {
            row,
            values,
            places,
        }
    }
}

// An MTRIXn.
#[derive(Clone, Copy)]
pub struct MtriX {
    pub row: usize,
    pub serial: u64,
    pub values: Transformation,
    pub places: RowPlaces,
    pub given: bool,
}

impl MtriX {
    pub const SERIAL: Columns = Columns { start: 7, end: 10 };

    pub const GIVEN: usize = 59;

    pub fn new(
        row: usize,
        serial: u64,
        values: Transformation,
        places: RowPlaces,
        given: bool,
    ) -> Self
        ensures { result ≡ record { row = row; serial = serial; values = values; places = places; given = given } }
    {
        MtriX {
            row,
            serial,
            values,
            places,
            given,
        }
    }
}
