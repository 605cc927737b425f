// The rows of SCALEn, ORIGXn and MTRIXn.
ghost use Rattle.std.specs.Prelude.{◌≡◌};
ghost use Rattle.row.specs.Rows.{rows_of};
ghost use Rattle.transformation.specs.Transformation.{transformation_fields, numbered_fields, mtrix_fields};

use crate::record::{MtriX, NumberedRow, RowPlaces, Transformation};
use row::{Row, Rows, Value};

// Those of the four values.
fn value_rows(values: Transformation, places: RowPlaces) -> [Row; 4]
    ensures { result ≡ transformation_fields values places }
{
    [
        Row(Transformation::A.start, Value::Real(values.a, places.a)),
        Row(Transformation::B.start, Value::Real(values.b, places.b)),
        Row(Transformation::C.start, Value::Real(values.c, places.c)),
        Row(Transformation::D.start, Value::Real(values.d, places.d)),
    ]
}

pub fn numbered_rows(numbered: NumberedRow) -> Rows
    ensures { result ≡ rows_of (numbered_fields numbered) }
{
    Rows::of(&value_rows(numbered.values, numbered.places))
}

pub fn mtrix_rows(mtrix: MtriX) -> Rows
    ensures { result ≡ rows_of (mtrix_fields mtrix) }
{
    let [a, b, c, d] = value_rows(mtrix.values, mtrix.places);
    Rows::of(&[
        Row(MtriX::SERIAL.start, Value::Unsigned(mtrix.serial)),
        a,
        b,
        c,
        d,
        Row(MtriX::GIVEN as u16, Value::Flag(mtrix.given)),
    ])
}
