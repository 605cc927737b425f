// Which field of an ATOM or HETATM the line's end cuts, and how many blanks are put behind a line that isn't cut.
ghost use Rattle.std.specs.List.{find};
ghost use Rattle.std.specs.Prelude.{◌≡◌};
ghost use Rattle.line.specs.declared.columns.Columns.{Columns};
ghost use Rattle.mend.specs.Mend as specs;

use atom::record::{Atom, Basics, Position};
use kind::kind_of;
use kind::numbered::number_of;
use line::columns::Columns;
use line::options::Mode;

// The fields of ATOM's table, in its order. One that has a single column isn't among them, since it can't be cut.
const FIELDS: [Columns; 12] = [
    Position::X,
    Position::Y,
    Position::Z,
    Atom::OCCUPANCY,
    Atom::BFACTOR,
    Basics::SERIAL,
    Basics::NAME,
    Basics::RESIDUE,
    Basics::NUMBER,
    Basics::SEGMENT,
    Basics::ELEMENT,
    Basics::CHARGE,
];

// Whether columns start before the end of a line of n bytes and stop after it.
fn is_inside(at: Columns, n: usize) -> bool
    ensures { result ≡ specs.cut at n }
{
    (at.start as usize) < n && n < at.end as usize
}

// The first columns that the end of a line of n bytes cuts.
fn first_cut(fields: &[Columns], n: usize) -> Option<Columns>
    ensures { result ≡ find (λ (at : Columns). specs.cut at n) fields.now }
{
    fields.iter().copied().find(|at| is_inside(*at, n))
}

// The first field of ATOM's table that the end of a line of n bytes cuts.
fn cut_field(n: usize) -> Option<Columns>
    ensures { result ≡ specs.cut_field n }
{
    first_cut(&FIELDS, n)
}

// Whether a line is an ATOM or a HETATM.
fn is_atom(line: &[u8]) -> bool
    ensures { result ≡ specs.is_atom_line line.now }
{
    let number = number_of(kind_of(false, Mode::Crate, line));
    if number == 3 {
        return true;
    }
    number == 4
}

// How many blanks are put behind a line.
pub fn padding(line: &[u8]) -> usize
    ensures { result ≡ specs.padding line.now }
{
    let n = line.len();
    if 80 <= n {
        return 0;
    }
    if cut_field(n).is_some() {
        return 0;
    }
    if is_atom(line) {
        return 80 - n;
    }
    0
}

// The field that the end of an ATOM or HETATM cuts, for which it is left as short as it is.
pub fn left_cut(line: &[u8]) -> Option<Columns>
    ensures { result ≡ specs.left_cut line.now }
{
    if is_atom(line) {
        return cut_field(line.len());
    }
    None
}
