// The name of a kind, without blanks.
ghost use Rattle.std.specs.Prelude.{◌≡◌};
ghost use Rattle.kind.specs.Name.{name_of, row_name};

use crate::Kind;

// The name of a row among three. A row above 2 has none.
fn of_row(
    row: usize,
    first: &'static [u8],
    second: &'static [u8],
    third: &'static [u8],
) -> &'static [u8]
    ensures { result.now ≡ row_name row first.now second.now third.now }
{
    match row {
        0 => first,
        1 => second,
        2 => third,
        _ => b"",
    }
}

pub fn name_of(kind: Kind) -> &'static [u8]
    ensures { result.now ≡ name_of kind }
{
    match kind {
        Kind::Empty => b"EMPTY",
        Kind::Header => b"HEADER",
        Kind::Remark => b"REMARK",
        Kind::Atom => b"ATOM",
        Kind::Hetatm => b"HETATM",
        Kind::Anisou => b"ANISOU",
        Kind::Cryst1 => b"CRYST1",
        Kind::Scale(row) => of_row(row, b"SCALE1", b"SCALE2", b"SCALE3"),
        Kind::Origx(row) => of_row(row, b"ORIGX1", b"ORIGX2", b"ORIGX3"),
        Kind::Mtrix(row) => of_row(row, b"MTRIX1", b"MTRIX2", b"MTRIX3"),
        Kind::Model => b"MODEL",
        Kind::Master => b"MASTER",
        Kind::Dbref => b"DBREF",
        Kind::Dbref1 => b"DBREF1",
        Kind::Dbref2 => b"DBREF2",
        Kind::Seqres => b"SEQRES",
        Kind::Seqadv => b"SEQADV",
        Kind::Modres => b"MODRES",
        Kind::Ssbond => b"SSBOND",
        Kind::Endmdl => b"ENDMDL",
        Kind::Ter => b"TER",
        Kind::End => b"END",
    }
}
