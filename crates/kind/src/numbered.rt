// A kind by its number.
ghost use Rattle.std.specs.Prelude.{◌≡◌, ◌<◌};
ghost use Rattle.kind.specs.Kind as specs;

use crate::Kind;

// No kind's number. It is a number and no None, since C hosts are told a kind by a number alone.
const NO_KIND: usize = 255;

// The number of a row's kind, from that of the family's first on. A row above 2 is no kind of a line.
fn row_place(first: usize, row: usize) -> usize
    requires { first < 255 }
    ensures { result ≡ specs.row_place first row }
{
    match row {
        0..=2 => first + row,
        _ => NO_KIND,
    }
}

// The place of its name in the list of names.
pub fn number_of(kind: Kind) -> usize
    ensures { result ≡ specs.number_of kind }
{
    match kind {
        Kind::Empty => 0,
        Kind::Header => 1,
        Kind::Remark => 2,
        Kind::Atom => 3,
        Kind::Hetatm => 4,
        Kind::Anisou => 5,
        Kind::Cryst1 => 6,
        Kind::Scale(row) => row_place(7, row),
        Kind::Origx(row) => row_place(10, row),
        Kind::Mtrix(row) => row_place(13, row),
        Kind::Model => 16,
        Kind::Master => 17,
        Kind::Dbref => 18,
        Kind::Dbref1 => 19,
        Kind::Dbref2 => 20,
        Kind::Seqres => 21,
        Kind::Seqadv => 22,
        Kind::Modres => 23,
        Kind::Ssbond => 24,
        Kind::Endmdl => 25,
        Kind::Ter => 26,
        Kind::End => 27,
    }
}
