// A record goes out as a line of 80 bytes, in the columns and decimals of wwPDB 3.30.
#![tactic(auto)]

ghost use Rattle.std.specs.Prelude.{◌≡◌};
ghost use Rattle.printer.specs.Sheets.{atom_sheet, anisou_sheet, cell_sheet};
ghost use Rattle.layout.specs.Places.{places_of};
ghost use Rattle.lexitem.specs.Describe.{fields_of};
ghost use Rattle.sheet.specs.Sheet as sheets;
ghost use Rattle.writer.specs.Writer as specs;
ghost use Rattle.line.specs.Text.{view_of};
ghost use Rattle.line.specs.declared.text.Field.TheVariants.{Words};

use atom::record::{Anisou, Atom};
use crystal::record::Crystal;
use layout::places::put_places;
use lexitem::item::{LexItem, rows_of};
use line::columns::Columns;
use line::text::{Field, view};
use printer::atoms::{write_anisou, write_atom};
use printer::bare::{Bare, write_bare, write_model};
use printer::rows::{write_mtrix, write_origx, write_scale};
use printer::unit_cell::write_cell;
use sheet::Unwritten;

// The name of a record, which of a kind that isn't written doesn't fit.
const NAME: Columns = Columns { start: 0, end: 6 };

fn write_atom_record<'a>(
    atom: Atom,
    line: &'a [u8],
    stand_in: &'a [u8],
    name: &[u8],
    places: &[u8],
    out: &mut [u8],
) -> Result<(), Unwritten>
    ensures { sheets.Writes out.old (atom_sheet atom.hetero (specs.label_of atom.basics line.now stand_in.now name.now) atom.position atom.occupancy atom.bfactor places.now) result out.new }
{
    let basics = atom.basics;
    let position = atom.position;
    let alternate = basics.alternate;
    let residue = basics.residue;
    let chain = basics.chain;
    let insertion = basics.insertion;
    let segment = basics.segment;
    let element = basics.element;
    write_atom(
        atom.hetero,
        basics.serial,
        name,
        view(line, stand_in, Field::One(alternate)),
        view(line, stand_in, Field::Words(residue)),
        view(line, stand_in, Field::One(chain)),
        basics.number,
        view(line, stand_in, Field::One(insertion)),
        position,
        atom.occupancy,
        atom.bfactor,
        view(line, stand_in, Field::Words(segment)),
        view(line, stand_in, Field::Words(element)),
        basics.charge,
        places,
        out,
    )
}

fn write_anisou_record<'a>(
    anisou: Anisou,
    line: &'a [u8],
    stand_in: &'a [u8],
    name: &[u8],
    out: &mut [u8],
) -> Result<(), Unwritten>
    ensures { sheets.Writes out.old (anisou_sheet (specs.label_of anisou.basics line.now stand_in.now name.now) anisou.factors) result out.new }
{
    let basics = anisou.basics;
    let factors = anisou.factors;
    let alternate = basics.alternate;
    let residue = basics.residue;
    let chain = basics.chain;
    let insertion = basics.insertion;
    let segment = basics.segment;
    let element = basics.element;
    write_anisou(
        basics.serial,
        name,
        view(line, stand_in, Field::One(alternate)),
        view(line, stand_in, Field::Words(residue)),
        view(line, stand_in, Field::One(chain)),
        basics.number,
        view(line, stand_in, Field::One(insertion)),
        factors,
        view(line, stand_in, Field::Words(segment)),
        view(line, stand_in, Field::Words(element)),
        basics.charge,
        out,
    )
}

fn write_crystal_record<'a>(
    crystal: Crystal,
    line: &'a [u8],
    stand_in: &'a [u8],
    places: &[u8],
    out: &mut [u8],
) -> Result<(), Unwritten>
    ensures { sheets.Writes out.old (cell_sheet crystal.cell (view_of line.now stand_in.now (Words crystal.spacegroup)) crystal.z places.now) result out.new }
{
    let cell = crystal.cell;
    let group = crystal.spacegroup;
    write_cell(
        cell,
        view(line, stand_in, Field::Words(group)),
        crystal.z,
        places,
        out,
    )
}

// The lent name counts for ATOM, HETATM and ANISOU alone. Texts are parts of the line that the record was read from, and the stand-in is
// what a character shows that this line doesn't reach. The places are how many decimals each real gets in turn; where nothing is asked, the
// format's.
pub fn write_record<'a>(
    item: LexItem,
    line: &'a [u8],
    stand_in: &'a [u8],
    name: &[u8],
    places: &[u8],
    out: &mut [u8],
) -> Result<(), Unwritten>
    ensures { sheets.Writes out.old (specs.item_sheet item line.now stand_in.now name.now places.now) result out.new }
{
    let another = Err(Unwritten::NoFit(NAME));
    match item {
        LexItem::Empty => another,
        LexItem::Header(_) => another,
        LexItem::Remark(_) => another,
        LexItem::Atom(atom) => write_atom_record(atom, line, stand_in, name, places, out),
        LexItem::Anisou(anisou) => write_anisou_record(anisou, line, stand_in, name, out),
        LexItem::Crystal(crystal) => write_crystal_record(crystal, line, stand_in, places, out),
        LexItem::Scale(scale) => {
            let values = scale.values;
            write_scale(scale.row, values, places, out)
        }
        LexItem::OrigX(origx) => {
            let values = origx.values;
            write_origx(origx.row, values, places, out)
        }
        LexItem::MtriX(mtrix) => {
            let values = mtrix.values;
            write_mtrix(mtrix.row, mtrix.serial, values, mtrix.given, places, out)
        }
        LexItem::Model(model) => write_model(model.number, out),
        LexItem::Master(_) => another,
        LexItem::Seqres(_) => another,
        LexItem::Dbref(_) => another,
        LexItem::Dbref1(_) => another,
        LexItem::Dbref2(_) => another,
        LexItem::Seqadv(_) => another,
        LexItem::Modres(_) => another,
        LexItem::SSBond(_) => another,
        LexItem::EndModel => write_bare(Bare::Endmdl, out),
        LexItem::Ter => write_bare(Bare::Ter, out),
        LexItem::End => write_bare(Bare::End, out),
    }
}

// The same, each real with as many decimals as it was read with.
pub fn write_as_read<'a>(
    item: LexItem,
    line: &'a [u8],
    stand_in: &'a [u8],
    name: &[u8],
    out: &mut [u8],
) -> Result<(), Unwritten>
    ensures { sheets.Writes out.old (specs.item_sheet item line.now stand_in.now name.now (places_of (fields_of item))) result out.new }
{
    let mut bytes = [0u8; 16];
    let rows = rows_of(item);
    let list = rows.list;
    let n = put_places(&mut bytes, 0, list);
    write_record(item, line, stand_in, name, &bytes[..n], out)
}
