// CRYST1.
ghost use Rattle.std.specs.Prelude.{◌≡◌, ◌-◌};
ghost use Rattle.printer.specs.Sheets as specs;
ghost use Rattle.printer.specs.Steps as steps;
ghost use Rattle.sheet.specs.Draft.{draft, drawn_all};
ghost use Rattle.sheet.specs.Sheet as sheets;

use crate::places::places_at;
use crystal::record::{Cell, Crystal};
use line::columns::Columns;
use sheet::{Figure, Pen, Unwritten, begin, draw_figure, draw_words, end, rule_off};

// Where Z is written. It is read to the end of the line.
const Z: Columns = Columns {
    start: Crystal::Z,
    end: 70,
};

// The decimals of a length and of an angle.
const LENGTH: usize = 3;

const ANGLE: usize = 2;

fn draw_lengths(out: &mut [u8], pen: Pen, cell: Cell, places: &[u8]) -> Pen
    ensures { draft out.new result ≡ drawn_all (draft out.old pen) (steps.length_cells cell places.now) }
{
    let a = Figure::Real(places_at(places, 0, LENGTH), cell.a);
    let b = Figure::Real(places_at(places, 1, LENGTH), cell.b);
    let c = Figure::Real(places_at(places, 2, LENGTH), cell.c);
    let first = draw_figure(out, pen, Cell::A, a);
    let second = draw_figure(out, first, Cell::B, b);
    draw_figure(out, second, Cell::C, c)
}

fn draw_angles(out: &mut [u8], pen: Pen, cell: Cell, places: &[u8]) -> Pen
    ensures { draft out.new result ≡ drawn_all (draft out.old pen) (steps.angle_cells cell places.now) }
{
    let alpha = Figure::Real(places_at(places, 3, ANGLE), cell.alpha);
    let beta = Figure::Real(places_at(places, 4, ANGLE), cell.beta);
    let gamma = Figure::Real(places_at(places, 5, ANGLE), cell.gamma);
    let first = draw_figure(out, pen, Cell::ALPHA, alpha);
    let second = draw_figure(out, first, Cell::BETA, beta);
    draw_figure(out, second, Cell::GAMMA, gamma)
}

pub fn write_cell(
    cell: Cell,
    group: &[u8],
    z: u64,
    places: &[u8],
    out: &mut [u8],
) -> Result<(), Unwritten>
    ensures { sheets.Writes out.old (specs.cell_sheet cell group.now z places.now) result out.new }
{
    let mut bytes = [0u8; 80];
    let named = begin(&mut bytes, b"CRYST1");
    let long = draw_lengths(&mut bytes, named, cell, places);
    let angled = draw_angles(&mut bytes, long, cell, places);
    let grouped = draw_words(&mut bytes, angled, Crystal::SPACEGROUP, true, group);
    let drawn = draw_figure(&mut bytes, grouped, Z, Figure::Unsigned(z));
    let ruled = rule_off(&mut bytes, drawn);
    let miss = ruled.miss;
    end(out, &bytes, miss)
}
