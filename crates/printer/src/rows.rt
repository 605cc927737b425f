// SCALEn, ORIGXn and MTRIXn.
ghost use Rattle.std.specs.Prelude.{◌≡◌, length};
ghost use Rattle.printer.specs.Sheets as specs;
ghost use Rattle.printer.specs.Steps as steps;
ghost use Rattle.sheet.specs.Draft.{draft, begun, drawn_all};
ghost use Rattle.sheet.specs.Sheet as sheets;

use crate::places::places_at;
use line::columns::Columns;
use sheet::{Figure, Pen, Unwritten, begin, draw_figure, end, rule_off};
use transformation::record::{MtriX, Transformation};

// The last byte of the name.
const ROW: Columns = Columns { start: 5, end: 6 };

const GIVEN: Columns = Columns { start: 59, end: 60 };

// The decimals of the matrix and of the translation.
const MATRIX: usize = 6;

const TRANSLATION: usize = 5;

fn draw_values(out: &mut [u8], pen: Pen, values: Transformation, places: &[u8]) -> Pen
    ensures { draft out.new result ≡ drawn_all (draft out.old pen) (steps.row_cells values places.now) }
{
    let a = Figure::Real(places_at(places, 0, MATRIX), values.a);
    let b = Figure::Real(places_at(places, 1, MATRIX), values.b);
    let c = Figure::Real(places_at(places, 2, MATRIX), values.c);
    let d = Figure::Real(places_at(places, 3, TRANSLATION), values.d);
    let first = draw_figure(out, pen, Transformation::A, a);
    let second = draw_figure(out, first, Transformation::B, b);
    let third = draw_figure(out, second, Transformation::C, c);
    draw_figure(out, third, Transformation::D, d)
}

fn write_values(
    name: &[u8],
    row: usize,
    values: Transformation,
    places: &[u8],
    out: &mut [u8],
) -> Result<(), Unwritten>
    requires { length name.now ≡ 5 }
    ensures { sheets.Writes out.old (steps.values_sheet name.now row values places.now) result out.new }
{
    let mut bytes = [0u8; 80];
    let named = begin(&mut bytes, name);
    let rowed = draw_figure(&mut bytes, named, ROW, Figure::Row(row));
    let drawn = draw_values(&mut bytes, rowed, values, places);
    let ruled = rule_off(&mut bytes, drawn);
    let miss = ruled.miss;
    end(out, &bytes, miss)
}

// SCALE's row and ORIGX's differ in the name alone. Two names for callers stay: a name as an argument would have to be five bytes.
pub fn write_scale(
    row: usize,
    values: Transformation,
    places: &[u8],
    out: &mut [u8],
) -> Result<(), Unwritten>
    ensures { sheets.Writes out.old (specs.scale_sheet row values places.now) result out.new }
{
    write_values(b"SCALE", row, values, places, out)
}

pub fn write_origx(
    row: usize,
    values: Transformation,
    places: &[u8],
    out: &mut [u8],
) -> Result<(), Unwritten>
    ensures { sheets.Writes out.old (specs.origx_sheet row values places.now) result out.new }
{
    write_values(b"ORIGX", row, values, places, out)
}

pub fn write_mtrix(
    row: usize,
    serial: u64,
    values: Transformation,
    given: bool,
    places: &[u8],
    out: &mut [u8],
) -> Result<(), Unwritten>
    ensures { sheets.Writes out.old (specs.mtrix_sheet row serial values given places.now) result out.new }
{
    let mut bytes = [0u8; 80];
    let named = begin(&mut bytes, b"MTRIX");
    let rowed = draw_figure(&mut bytes, named, ROW, Figure::Row(row));
    let numbered = draw_figure(&mut bytes, rowed, MtriX::SERIAL, Figure::Unsigned(serial));
    let valued = draw_values(&mut bytes, numbered, values, places);
    let drawn = draw_figure(&mut bytes, valued, GIVEN, Figure::Given(given));
    let ruled = rule_off(&mut bytes, drawn);
    let miss = ruled.miss;
    end(out, &bytes, miss)
}
