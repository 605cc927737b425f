// SCALEn, ORIGXn and MTRIXn.
ghost use Rattle.std.specs.Prelude.{◌≡◌};
ghost use Rattle.field.specs.Table.{table_noted};
ghost use Rattle.line.specs.Given.{taking};
ghost use Rattle.transformation.specs.Transformation as specs;

use crate::record::{MtriX, NumberedRow, RowPlaces, Transformation};
use field::number_field::{real, unsigned};
use line::fault::{Faults, Got};

// The four values with their places.
fn lex_transformation(
    line: &[u8],
    exponents: bool,
    faults: Faults,
) -> Got<(Transformation, RowPlaces)>
    ensures { result ≡ record { value = (specs.transformation_of exponents line.now, specs.row_places_of exponents line.now); faults = table_noted (taking exponents line.now) specs.transformation_table faults } }
{
    let a = real(line, Transformation::A, 0.0, exponents, faults);
    let b = real(line, Transformation::B, 0.0, exponents, a.faults);
    let c = real(line, Transformation::C, 0.0, exponents, b.faults);
    let d = real(line, Transformation::D, 0.0, exponents, c.faults);
    let values = Transformation::new(a.value.value, b.value.value, c.value.value, d.value.value);
    let places = RowPlaces {
        a: a.value.places,
        b: b.value.places,
        c: c.value.places,
        d: d.value.places,
    };
    Got {
        value: (values, places),
        faults: d.faults,
    }
}

// A SCALEn or an ORIGXn.
pub fn lex_numbered(line: &[u8], row: usize, exponents: bool) -> Got<NumberedRow>
    ensures { result ≡ specs.got_numbered row (taking exponents line.now) }
{
    let got = lex_transformation(line, exponents, Faults::none());
    let (values, places) = got.value;
    Got {
        value: NumberedRow::new(row, values, places),
        faults: got.faults,
    }
}

// An MTRIXn, which is given if a `1` stands in that column.
pub fn lex_mtrix(line: &[u8], row: usize, exponents: bool) -> Got<MtriX>
    ensures { result ≡ specs.got_mtri_x row (taking exponents line.now) }
{
    let serial = unsigned(line, MtriX::SERIAL, Faults::none());
    let got = lex_transformation(line, exponents, serial.faults);
    let given = line.get(MtriX::GIVEN) == Some(&b'1');
    let (values, places) = got.value;
    Got {
        value: MtriX::new(row, serial.value, values, places, given),
        faults: got.faults,
    }
}
