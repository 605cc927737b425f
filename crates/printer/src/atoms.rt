// ATOM, HETATM and ANISOU.
ghost use Rattle.std.specs.Prelude.{◌≡◌};
ghost use Rattle.printer.specs.Sheets as specs;
ghost use Rattle.printer.specs.Steps as steps;
ghost use Rattle.sheet.specs.Draft.{draft, begun, drawn_all};
ghost use Rattle.sheet.specs.Sheet as sheets;

use crate::places::places_at;
use atom::record::{Atom, Basics, Factors, Position};
use line::columns::Columns;
use sheet::{Figure, Pen, Unwritten, begin, draw_figure, draw_lent, draw_words, end, rule_off};

const ALTERNATE: Columns = Columns {
    start: Basics::ALTERNATE,
    end: Basics::ALTERNATE + 1,
};

const CHAIN: Columns = Columns {
    start: Basics::CHAIN,
    end: Basics::CHAIN + 1,
};

const INSERTION: Columns = Columns {
    start: Basics::INSERTION,
    end: Basics::INSERTION + 1,
};

// The decimals of a coordinate, and of occupancy and temperature factor.
const COORDINATE: usize = 3;

const FACTOR: usize = 2;

// The name of an atom, as four bytes, and where it stands in its residue.
fn draw_name(out: &mut [u8], pen: Pen, serial: u64, name: &[u8], alternate: &[u8]) -> Pen
    ensures { draft out.new result ≡ drawn_all (draft out.old pen) (steps.name_cells serial name.now alternate.now) }
{
    let numbered = draw_figure(out, pen, Basics::SERIAL, Figure::Unsigned(serial));
    let named = draw_lent(out, numbered, Basics::NAME, name);
    draw_words(out, named, ALTERNATE, false, alternate)
}

// The residue that it is in.
fn draw_residue(
    out: &mut [u8],
    pen: Pen,
    residue: &[u8],
    chain: &[u8],
    number: i64,
    insertion: &[u8],
) -> Pen
    ensures { draft out.new result ≡ drawn_all (draft out.old pen) (steps.residue_cells residue.now chain.now number insertion.now) }
{
    let named = draw_words(out, pen, Basics::RESIDUE, false, residue);
    let chained = draw_words(out, named, CHAIN, false, chain);
    let numbered = draw_figure(out, chained, Basics::NUMBER, Figure::Signed(number));
    draw_words(out, numbered, INSERTION, false, insertion)
}

fn draw_tail(out: &mut [u8], pen: Pen, segment: &[u8], element: &[u8], charge: i64) -> Pen
    ensures { draft out.new result ≡ drawn_all (draft out.old pen) (steps.tail_cells segment.now element.now charge) }
{
    let segmented = draw_words(out, pen, Basics::SEGMENT, true, segment);
    let named = draw_words(out, segmented, Basics::ELEMENT, false, element);
    draw_figure(out, named, Basics::CHARGE, Figure::Charge(charge))
}

fn draw_position(out: &mut [u8], pen: Pen, position: Position, places: &[u8]) -> Pen
    ensures { draft out.new result ≡ drawn_all (draft out.old pen) (steps.position_cells position places.now) }
{
    let x = Figure::Real(places_at(places, 0, COORDINATE), position.x);
    let y = Figure::Real(places_at(places, 1, COORDINATE), position.y);
    let z = Figure::Real(places_at(places, 2, COORDINATE), position.z);
    let first = draw_figure(out, pen, Position::X, x);
    let second = draw_figure(out, first, Position::Y, y);
    draw_figure(out, second, Position::Z, z)
}

fn draw_weights(out: &mut [u8], pen: Pen, occupancy: f64, bfactor: f64, places: &[u8]) -> Pen
    ensures { draft out.new result ≡ drawn_all (draft out.old pen) (steps.weight_cells occupancy bfactor places.now) }
{
    let o = Figure::Real(places_at(places, 3, FACTOR), occupancy);
    let b = Figure::Real(places_at(places, 4, FACTOR), bfactor);
    let first = draw_figure(out, pen, Atom::OCCUPANCY, o);
    draw_figure(out, first, Atom::BFACTOR, b)
}

fn draw_diagonal(out: &mut [u8], pen: Pen, factors: Factors) -> Pen
    ensures { draft out.new result ≡ drawn_all (draft out.old pen) (steps.diagonal_cells factors) }
{
    let first = draw_figure(out, pen, Factors::U11, Figure::Factor(factors.u11));
    let second = draw_figure(out, first, Factors::U22, Figure::Factor(factors.u22));
    draw_figure(out, second, Factors::U33, Figure::Factor(factors.u33))
}

fn draw_mixed(out: &mut [u8], pen: Pen, factors: Factors) -> Pen
    ensures { draft out.new result ≡ drawn_all (draft out.old pen) (steps.mixed_cells factors) }
{
    let first = draw_figure(out, pen, Factors::U12, Figure::Factor(factors.u12));
    let second = draw_figure(out, first, Factors::U13, Figure::Factor(factors.u13));
    draw_figure(out, second, Factors::U23, Figure::Factor(factors.u23))
}

// The name of the record.
fn begin_atom(out: &mut [u8], hetero: bool) -> Pen
    ensures { draft out.new result ≡ begun out.old (steps.atom_name hetero) }
{
    if hetero {
        return begin(out, b"HETATM");
    }
    begin(out, b"ATOM  ")
}

pub fn write_atom(
    hetero: bool,
    serial: u64,
    name: &[u8],
    alternate: &[u8],
    residue: &[u8],
    chain: &[u8],
    number: i64,
    insertion: &[u8],
    position: Position,
    occupancy: f64,
    bfactor: f64,
    segment: &[u8],
    element: &[u8],
    charge: i64,
    places: &[u8],
    out: &mut [u8],
) -> Result<(), Unwritten>
    ensures { sheets.Writes out.old (specs.atom_sheet hetero (specs.label serial name.now alternate.now residue.now chain.now number insertion.now segment.now element.now charge) position occupancy bfactor places.now) result out.new }
{
    let mut bytes = [0u8; 80];
    let begun = begin_atom(&mut bytes, hetero);
    let named = draw_name(&mut bytes, begun, serial, name, alternate);
    let placed = draw_residue(&mut bytes, named, residue, chain, number, insertion);
    let positioned = draw_position(&mut bytes, placed, position, places);
    let weighed = draw_weights(&mut bytes, positioned, occupancy, bfactor, places);
    let drawn = draw_tail(&mut bytes, weighed, segment, element, charge);
    let ruled = rule_off(&mut bytes, drawn);
    let miss = ruled.miss;
    end(out, &bytes, miss)
}

pub fn write_anisou(
    serial: u64,
    name: &[u8],
    alternate: &[u8],
    residue: &[u8],
    chain: &[u8],
    number: i64,
    insertion: &[u8],
    factors: Factors,
    segment: &[u8],
    element: &[u8],
    charge: i64,
    out: &mut [u8],
) -> Result<(), Unwritten>
    ensures { sheets.Writes out.old (specs.anisou_sheet (specs.label serial name.now alternate.now residue.now chain.now number insertion.now segment.now element.now charge) factors) result out.new }
{
    let mut bytes = [0u8; 80];
    let begun = begin(&mut bytes, b"ANISOU");
    let named = draw_name(&mut bytes, begun, serial, name, alternate);
    let placed = draw_residue(&mut bytes, named, residue, chain, number, insertion);
    let halved = draw_diagonal(&mut bytes, placed, factors);
    let factored = draw_mixed(&mut bytes, halved, factors);
    let drawn = draw_tail(&mut bytes, factored, segment, element, charge);
    let ruled = rule_off(&mut bytes, drawn);
    let miss = ruled.miss;
    end(out, &bytes, miss)
}
