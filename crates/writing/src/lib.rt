// Lines written for C hosts: numbers and byte slices alone, and one number for an answer.
#![tactic(auto)]

ghost use Rattle.printer.specs.Sheets as sheets;
ghost use Rattle.writing.specs.Write as specs;
ghost use Rattle.std.specs.Prelude.{◌≡◌};

use atom::record::{Factors, Position};
use crystal::record::Cell;
use line::columns::Columns;
use printer::atoms::{write_anisou, write_atom};
use printer::bare::{Bare, write_bare, write_model};
use printer::rows::{write_mtrix, write_origx, write_scale};
use printer::unit_cell::write_cell;
use sheet::Unwritten;
use transformation::record::Transformation;

// The name of a record, which of another kind doesn't fit.
const NAME: Columns = Columns { start: 0, end: 6 };

// An answer as one number: 0 for a line, or a refusal's number, place and length.
fn packed(written: Result<(), Unwritten>) -> u64
    ensures { result ≡ specs.packed written }
{
    let Err(why) = written else {
        return 0;
    };
    match why {
        Unwritten::NoFit(at) => {
            let width = at.width() as u64;
            9 * 281474976710656 + at.start as u64 * 4294967296 + width
        }
        Unwritten::NoRoom => 8 * 281474976710656 + 80,
    }
}

pub fn pack_atom(
    hetero: u32,
    serial: u64,
    name: &[u8],
    alternate: &[u8],
    residue: &[u8],
    chain: &[u8],
    number: i64,
    insertion: &[u8],
    x: f64,
    y: f64,
    z: f64,
    occupancy: f64,
    bfactor: f64,
    segment: &[u8],
    element: &[u8],
    charge: i64,
    places: &[u8],
    out: &mut [u8],
) -> u64
    ensures { specs.Packs out.old (specs.atom_by hetero (sheets.label serial name.now alternate.now residue.now chain.now number insertion.now segment.now element.now charge) x y z occupancy bfactor places.now) result out.new }
{
    packed(write_atom(
        hetero != 0,
        serial,
        name,
        alternate,
        residue,
        chain,
        number,
        insertion,
        Position { x, y, z },
        occupancy,
        bfactor,
        segment,
        element,
        charge,
        places,
        out,
    ))
}

pub fn pack_anisou(
    serial: u64,
    name: &[u8],
    alternate: &[u8],
    residue: &[u8],
    chain: &[u8],
    number: i64,
    insertion: &[u8],
    u11: f64,
    u22: f64,
    u33: f64,
    u12: f64,
    u13: f64,
    u23: f64,
    segment: &[u8],
    element: &[u8],
    charge: i64,
    out: &mut [u8],
) -> u64
    ensures { specs.Packs out.old (specs.anisou_by (sheets.label serial name.now alternate.now residue.now chain.now number insertion.now segment.now element.now charge) u11 u22 u33 u12 u13 u23) result out.new }
{
    packed(write_anisou(
        serial,
        name,
        alternate,
        residue,
        chain,
        number,
        insertion,
        Factors {
            u11,
            u22,
            u33,
            u12,
            u13,
            u23,
        },
        segment,
        element,
        charge,
        out,
    ))
}

pub fn pack_cell(
    a: f64,
    b: f64,
    c: f64,
    alpha: f64,
    beta: f64,
    gamma: f64,
    group: &[u8],
    z: u64,
    places: &[u8],
    out: &mut [u8],
) -> u64
    ensures { specs.Packs out.old (specs.cell_by a b c alpha beta gamma group.now z places.now) result out.new }
{
    packed(write_cell(
        Cell {
            a,
            b,
            c,
            alpha,
            beta,
            gamma,
        },
        group,
        z,
        places,
        out,
    ))
}

// Serial and given count for MTRIX alone.
pub fn pack_row(
    family: u32,
    row: u64,
    serial: u64,
    a: f64,
    b: f64,
    c: f64,
    d: f64,
    given: u32,
    places: &[u8],
    out: &mut [u8],
) -> u64
    ensures { specs.Packs out.old (specs.row_by family row serial a b c d given places.now) result out.new }
{
    let values = Transformation { a, b, c, d };
    if family == 0 {
        return packed(write_scale(row as usize, values, places, out));
    }
    if family == 1 {
        return packed(write_origx(row as usize, values, places, out));
    }
    if family == 2 {
        return packed(write_mtrix(row as usize, serial, values, given != 0, places, out));
    }
    packed(Err(Unwritten::NoFit(NAME)))
}

pub fn pack_model(number: u64, out: &mut [u8]) -> u64
    ensures { specs.Packs out.old (sheets.model_sheet number) result out.new }
{
    packed(write_model(number, out))
}

pub fn pack_bare(which: u32, out: &mut [u8]) -> u64
    ensures { specs.Packs out.old (specs.bare_by which) result out.new }
{
    if which == 0 {
        return packed(write_bare(Bare::Ter, out));
    }
    if which == 1 {
        return packed(write_bare(Bare::Endmdl, out));
    }
    if which == 2 {
        return packed(write_bare(Bare::End, out));
    }
    packed(Err(Unwritten::NoFit(NAME)))
}
