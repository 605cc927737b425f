// The rows of CRYST1.
ghost use Rattle.std.specs.Prelude.{◌≡◌};
ghost use Rattle.row.specs.Rows.{rows_of};
ghost use Rattle.crystal.specs.Crystal.{crystal_fields};

use crate::record::{Cell, Crystal};
use row::{Row, Rows, Value};

pub fn crystal_rows(crystal: Crystal) -> Rows
    ensures { result ≡ rows_of (crystal_fields crystal) }
{
    let cell = crystal.cell;
    let places = crystal.places;
    Rows::of(&[
        Row(Cell::A.start, Value::Real(cell.a, places.a)),
        Row(Cell::B.start, Value::Real(cell.b, places.b)),
        Row(Cell::C.start, Value::Real(cell.c, places.c)),
        Row(Cell::ALPHA.start, Value::Real(cell.alpha, places.alpha)),
        Row(Cell::BETA.start, Value::Real(cell.beta, places.beta)),
        Row(Cell::GAMMA.start, Value::Real(cell.gamma, places.gamma)),
        Row(Crystal::SPACEGROUP.start, Value::Words(crystal.spacegroup)),
        Row(Crystal::Z, Value::Unsigned(crystal.z)),
    ])
}
