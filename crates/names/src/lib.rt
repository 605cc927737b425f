// What fields are called, by kind and column; what was put where one wasn't read; and the groups of a summary.
#![tactic(auto)]

ghost use Rattle.std.specs.Prelude.{◌≡◌, find, map};
ghost use Rattle.kind.specs.Kind.{number_of};
ghost use Rattle.names.specs.Names as specs;
ghost use Rattle.page.specs.Page.{page, put};

use kind::Kind;
use kind::numbered::number_of;
use page::put_bytes;

// A field: the first kind that has it, its column, what it is called, what is put where it isn't read, and its group.
#[derive(Clone, Copy)]
struct Field(Kind, usize, &'static [u8], &'static [u8], usize);

// Any other column.
const OTHER: Field = Field(Kind::Empty, 0, b"field", b"nothing", 19);

const FIELDS: [Field; 120] = [
    Field(Kind::Remark, 7, b"remark number", b"0", 19),
    Field(Kind::Atom, 6, b"serial number", b"0", 0),
    Field(Kind::Atom, 12, b"atom name", b"no text", 1),
    Field(Kind::Atom, 16, b"alternate location", b"nothing", 2),
    Field(Kind::Atom, 17, b"residue name", b"no text", 3),
    Field(Kind::Atom, 21, b"chain", b"a blank", 4),
    Field(Kind::Atom, 22, b"residue number", b"0", 5),
    Field(Kind::Atom, 26, b"insertion code", b"nothing", 6),
    Field(Kind::Atom, 30, b"x", b"0.0", 7),
    Field(Kind::Atom, 38, b"y", b"0.0", 8),
    Field(Kind::Atom, 46, b"z", b"0.0", 9),
    Field(Kind::Atom, 54, b"occupancy", b"1.0", 10),
    Field(Kind::Atom, 60, b"B factor", b"0.0", 11),
    Field(Kind::Atom, 72, b"segment", b"no text", 12),
    Field(Kind::Atom, 76, b"element", b"no text", 13),
    Field(Kind::Atom, 78, b"charge", b"0", 14),
    Field(Kind::Atom, 79, b"charge", b"0", 14),
    Field(Kind::Anisou, 6, b"serial number", b"0", 0),
    Field(Kind::Anisou, 12, b"atom name", b"no text", 1),
    Field(Kind::Anisou, 16, b"alternate location", b"nothing", 2),
    Field(Kind::Anisou, 17, b"residue name", b"no text", 3),
    Field(Kind::Anisou, 21, b"chain", b"a blank", 4),
    Field(Kind::Anisou, 22, b"residue number", b"0", 5),
    Field(Kind::Anisou, 26, b"insertion code", b"nothing", 6),
    Field(Kind::Anisou, 28, b"U11", b"0.0", 15),
    Field(Kind::Anisou, 35, b"U22", b"0.0", 15),
    Field(Kind::Anisou, 42, b"U33", b"0.0", 15),
    Field(Kind::Anisou, 49, b"U12", b"0.0", 15),
    Field(Kind::Anisou, 56, b"U13", b"0.0", 15),
    Field(Kind::Anisou, 63, b"U23", b"0.0", 15),
    Field(Kind::Anisou, 72, b"segment", b"no text", 12),
    Field(Kind::Anisou, 76, b"element", b"no text", 13),
    Field(Kind::Anisou, 78, b"charge", b"0", 14),
    Field(Kind::Anisou, 79, b"charge", b"0", 14),
    Field(Kind::Cryst1, 6, b"a", b"0.0", 16),
    Field(Kind::Cryst1, 15, b"b", b"0.0", 16),
    Field(Kind::Cryst1, 24, b"c", b"0.0", 16),
    Field(Kind::Cryst1, 33, b"alpha", b"0.0", 16),
    Field(Kind::Cryst1, 40, b"beta", b"0.0", 16),
    Field(Kind::Cryst1, 47, b"gamma", b"0.0", 16),
    Field(Kind::Cryst1, 66, b"Z", b"0", 16),
    Field(Kind::Scale(0), 10, b"first matrix element", b"0.0", 17),
    Field(Kind::Scale(0), 20, b"second matrix element", b"0.0", 17),
    Field(Kind::Scale(0), 30, b"third matrix element", b"0.0", 17),
    Field(Kind::Scale(0), 45, b"translation", b"0.0", 17),
    Field(Kind::Mtrix(0), 7, b"serial number", b"0", 17),
    Field(Kind::Mtrix(0), 10, b"first matrix element", b"0.0", 17),
    Field(Kind::Mtrix(0), 20, b"second matrix element", b"0.0", 17),
    Field(Kind::Mtrix(0), 30, b"third matrix element", b"0.0", 17),
    Field(Kind::Mtrix(0), 45, b"translation", b"0.0", 17),
    Field(Kind::Model, 6, b"model number", b"0", 19),
    Field(Kind::Model, 10, b"model number", b"0", 19),
    Field(Kind::Master, 10, b"REMARK count", b"0", 19),
    Field(Kind::Master, 15, b"zero", b"0", 19),
    Field(Kind::Master, 20, b"HET count", b"0", 19),
    Field(Kind::Master, 25, b"HELIX count", b"0", 19),
    Field(Kind::Master, 30, b"SHEET count", b"0", 19),
    Field(Kind::Master, 35, b"TURN count", b"0", 19),
    Field(Kind::Master, 40, b"SITE count", b"0", 19),
    Field(Kind::Master, 45, b"ORIGX, SCALE and MTRIX count", b"0", 19),
    Field(Kind::Master, 50, b"ATOM and HETATM count", b"0", 19),
    Field(Kind::Master, 55, b"TER count", b"0", 19),
    Field(Kind::Master, 60, b"CONECT count", b"0", 19),
    Field(Kind::Master, 65, b"SEQRES count", b"0", 19),
    Field(Kind::Dbref, 7, b"entry code", b"no text", 18),
    Field(Kind::Dbref, 12, b"chain", b"no text", 18),
    Field(Kind::Dbref, 14, b"first residue number", b"0", 18),
    Field(Kind::Dbref, 18, b"first insertion code", b"a blank", 18),
    Field(Kind::Dbref, 20, b"last residue number", b"0", 18),
    Field(Kind::Dbref, 24, b"last insertion code", b"a blank", 18),
    Field(Kind::Dbref, 26, b"database", b"no text", 18),
    Field(Kind::Dbref, 33, b"accession code", b"no text", 18),
    Field(Kind::Dbref, 42, b"database entry name", b"no text", 18),
    Field(Kind::Dbref, 55, b"first database number", b"0", 18),
    Field(
        Kind::Dbref,
        60,
        b"first database insertion code",
        b"a blank",
        18,
    ),
    Field(Kind::Dbref, 62, b"last database number", b"0", 18),
    Field(
        Kind::Dbref,
        67,
        b"last database insertion code",
        b"a blank",
        18,
    ),
    Field(Kind::Dbref1, 7, b"entry code", b"no text", 18),
    Field(Kind::Dbref1, 12, b"chain", b"no text", 18),
    Field(Kind::Dbref1, 14, b"first residue number", b"0", 18),
    Field(Kind::Dbref1, 18, b"first insertion code", b"a blank", 18),
    Field(Kind::Dbref1, 20, b"last residue number", b"0", 18),
    Field(Kind::Dbref1, 21, b"last residue number", b"0", 18),
    Field(Kind::Dbref1, 24, b"last insertion code", b"a blank", 18),
    Field(Kind::Dbref1, 26, b"database", b"no text", 18),
    Field(Kind::Dbref1, 47, b"database entry name", b"no text", 18),
    Field(Kind::Dbref2, 7, b"entry code", b"no text", 18),
    Field(Kind::Dbref2, 12, b"chain", b"no text", 18),
    Field(Kind::Dbref2, 18, b"accession code", b"no text", 18),
    Field(Kind::Dbref2, 45, b"first database number", b"0", 18),
    Field(Kind::Dbref2, 57, b"last database number", b"0", 18),
    Field(Kind::Seqres, 7, b"serial number", b"0", 18),
    Field(Kind::Seqres, 11, b"chain", b"a blank", 18),
    Field(Kind::Seqres, 13, b"number of residues", b"0", 18),
    Field(Kind::Seqadv, 7, b"entry code", b"no text", 18),
    Field(Kind::Seqadv, 12, b"residue name", b"no text", 18),
    Field(Kind::Seqadv, 16, b"chain", b"no text", 18),
    Field(Kind::Seqadv, 18, b"residue number", b"0", 18),
    Field(Kind::Seqadv, 22, b"insertion code", b"nothing", 18),
    Field(Kind::Seqadv, 24, b"database", b"no text", 18),
    Field(Kind::Seqadv, 29, b"accession code", b"no text", 18),
    Field(Kind::Seqadv, 39, b"database residue name", b"no text", 18),
    Field(Kind::Seqadv, 43, b"database residue number", b"0", 18),
    Field(Kind::Modres, 7, b"entry code", b"no text", 18),
    Field(Kind::Modres, 12, b"residue name", b"no text", 18),
    Field(Kind::Modres, 16, b"chain", b"a blank", 18),
    Field(Kind::Modres, 18, b"residue number", b"0", 18),
    Field(Kind::Modres, 22, b"insertion code", b"nothing", 18),
    Field(Kind::Modres, 24, b"standard residue name", b"no text", 18),
    Field(Kind::Ssbond, 11, b"first residue name", b"no text", 19),
    Field(Kind::Ssbond, 15, b"first chain", b"a blank", 19),
    Field(Kind::Ssbond, 17, b"first residue number", b"0", 19),
    Field(Kind::Ssbond, 21, b"first insertion code", b"nothing", 19),
    Field(Kind::Ssbond, 25, b"second residue name", b"no text", 19),
    Field(Kind::Ssbond, 29, b"second chain", b"a blank", 19),
    Field(Kind::Ssbond, 31, b"second residue number", b"0", 19),
    Field(Kind::Ssbond, 35, b"second insertion code", b"nothing", 19),
    Field(Kind::Ssbond, 59, b"first symmetry operator", b"no text", 19),
    Field(
        Kind::Ssbond,
        66,
        b"second symmetry operator",
        b"no text",
        19,
    ),
    Field(Kind::Ssbond, 73, b"bond length", b"0.0", 19),
];

const GROUPS: [&[u8]; 20] = [
    b"serial number",
    b"atom name",
    b"alternate location",
    b"residue name",
    b"chain",
    b"residue number",
    b"insertion code",
    b"x",
    b"y",
    b"z",
    b"occupancy",
    b"B factor",
    b"segment",
    b"element",
    b"charge",
    b"U11 to U23",
    b"CRYST1",
    b"SCALE, ORIGX and MTRIX",
    b"SEQRES, DBREF, SEQADV and MODRES",
    b"other records",
];

// Kinds that have the same fields go by the first of them.
fn family_of(kind: Kind) -> usize
    ensures { result ≡ specs.family_of (number_of kind) }
{
    let number = number_of(kind);
    if number == 4 {
        return 3;
    }
    if number < 7 {
        return number;
    }
    if number < 13 {
        return 7;
    }
    if number < 16 {
        return 13;
    }
    number
}

// Whether a field is of a family at a column.
fn is_of(field: Field, family: usize, column: usize) -> bool
    ensures { result ≡ specs.is_of family column field }
{
    number_of(field.0) == family && field.1 == column
}

// The first of some fields that is of a family at a column.
fn field_in(fields: &[Field], family: usize, column: usize) -> Option<Field>
    ensures { result ≡ find (specs.is_of family column) fields.now }
{
    fields
        .iter()
        .copied()
        .find(|field| is_of(*field, family, column))
}

// The same, or else any other column's.
fn called_in(fields: &[Field], family: usize, column: usize) -> Field
    ensures { specs.called_by result ≡ specs.called_in family column (map specs.called_by fields.now) }
{
    field_in(fields, family, column).unwrap_or(OTHER)
}

// What is called by a kind and a column.
fn called_at(kind: Kind, column: usize) -> Field
    ensures { specs.called_by result ≡ specs.called_at kind column }
{
    called_in(&FIELDS, family_of(kind), column)
}

// A field's name.
pub fn put_name(out: &mut [u8], at: usize, kind: Kind, column: usize) -> usize
    ensures { page out.new result ≡ put (page out.old at) (specs.name_of kind column) }
{
    put_bytes(out, at, called_at(kind, column).2)
}

// What was put where the field wasn't read.
pub fn put_default(out: &mut [u8], at: usize, kind: Kind, column: usize) -> usize
    ensures { page out.new result ≡ put (page out.old at) (specs.default_text kind column) }
{
    put_bytes(out, at, called_at(kind, column).3)
}

// The group of a summary that a field's faults are counted in.
pub fn group_of(kind: Kind, column: usize) -> usize
    ensures { result ≡ specs.group_of kind column }
{
    called_at(kind, column).4
}

// The text at a place, if there is one.
fn put_text(out: &mut [u8], at: usize, texts: &[&[u8]], place: usize) -> usize
    ensures { page out.new result ≡ put (page out.old at) (specs.text_at place (map (λ t. t.now) texts.now)) }
{
    if place < texts.len() {
        return put_bytes(out, at, texts[place]);
    }
    at
}

// A group's name. There is none from 20 on.
pub fn put_group(out: &mut [u8], at: usize, group: usize) -> usize
    ensures { page out.new result ≡ put (page out.old at) (specs.group_name group) }
{
    put_text(out, at, &GROUPS, group)
}
