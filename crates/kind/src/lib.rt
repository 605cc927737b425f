// Which kind a line is, by its first bytes, and the name of a kind. A name is looked up as one number, its bytes being the digits.
#![tactic(auto)]

ghost use Rattle.std.specs.Prelude.{◌≡◌, ◌≤◌, ◌&&◌, eqb, length, take};
ghost use Rattle.kind.specs.Key.{key_of, kind_by_key, four_of, two_of};
ghost use Rattle.kind.specs.Kind as specs;

use line::options::Mode;

pub mod name;
pub mod numbered;

// SCALEn, ORIGXn and MTRIXn carry their row, n less one.
#[derive(Clone, Copy)]
pub enum Kind {
    Empty,
    Header,
    Remark,
    Atom,
    Hetatm,
    Anisou,
    Cryst1,
    Scale(usize),
    Origx(usize),
    Mtrix(usize),
    Model,
    Master,
    Dbref,
    Dbref1,
    Dbref2,
    Seqres,
    Seqadv,
    Modres,
    Ssbond,
    Endmdl,
    Ter,
    End,
}

// The first three bytes as a number.
fn three(line: &[u8]) -> u64
    requires { 3 ≤ length line.now }
    ensures { result ≡ key_of (take 3 line.now) }
{
    u64::from_be_bytes([0, 0, 0, 0, 0, line[0], line[1], line[2]])
}

// The first six bytes as a number.
fn six(line: &[u8]) -> u64
    requires { 6 ≤ length line.now }
    ensures { result ≡ key_of (take 6 line.now) }
{
    u64::from_be_bytes([0, 0, line[0], line[1], line[2], line[3], line[4], line[5]])
}

// The names stand as numbers, since a match on byte strings, which is as quick, comes to its last arm in ninety ways, each with a proof by hand.
fn named(key: u64) -> Kind
    ensures { result ≡ kind_by_key key specs.names }
{
    match key {
        0x454d50545920 => Kind::Empty, // EMPTY
        0x484541444552 => Kind::Header, // HEADER
        0x52454d41524b => Kind::Remark, // REMARK
        0x41544f4d2020 => Kind::Atom, // ATOM
        0x48455441544d => Kind::Hetatm, // HETATM
        0x414e49534f55 => Kind::Anisou, // ANISOU
        0x435259535431 => Kind::Cryst1, // CRYST1
        0x5343414c4531 => Kind::Scale(0), // SCALE1
        0x5343414c4532 => Kind::Scale(1), // SCALE2
        0x5343414c4533 => Kind::Scale(2), // SCALE3
        0x4f5249475831 => Kind::Origx(0), // ORIGX1
        0x4f5249475832 => Kind::Origx(1), // ORIGX2
        0x4f5249475833 => Kind::Origx(2), // ORIGX3
        0x4d5452495831 => Kind::Mtrix(0), // MTRIX1
        0x4d5452495832 => Kind::Mtrix(1), // MTRIX2
        0x4d5452495833 => Kind::Mtrix(2), // MTRIX3
        0x4d4f44454c20 => Kind::Model, // MODEL
        0x4d4153544552 => Kind::Master, // MASTER
        0x444252454620 => Kind::Dbref, // DBREF
        0x444252454631 => Kind::Dbref1, // DBREF1
        0x444252454632 => Kind::Dbref2, // DBREF2
        0x534551524553 => Kind::Seqres, // SEQRES
        0x534551414456 => Kind::Seqadv, // SEQADV
        0x4d4f44524553 => Kind::Modres, // MODRES
        0x5353424f4e44 => Kind::Ssbond, // SSBOND
        0x454e444d444c => Kind::Endmdl, // ENDMDL
        0x544552202020 => Kind::Ter, // TER
        0x454e44202020 => Kind::End, // END
        _ => Kind::Empty,
    }
}

// The kinds that atoms only keeps. They have a table of their own, since a choice among those of `named` would list the same six again.
fn named_kept(key: u64) -> Kind
    ensures { result ≡ kind_by_key key (specs.kept_names specs.names) }
{
    match key {
        0x454d50545920 => Kind::Empty, // EMPTY
        0x41544f4d2020 => Kind::Atom, // ATOM
        0x48455441544d => Kind::Hetatm, // HETATM
        0x4d4f44454c20 => Kind::Model, // MODEL
        0x454e444d444c => Kind::Endmdl, // ENDMDL
        0x544552202020 => Kind::Ter, // TER
        0x454e44202020 => Kind::End, // END
        _ => Kind::Empty,
    }
}

fn named_short(key: u64) -> Kind
    ensures { result ≡ kind_by_key key specs.short_names }
{
    match key {
        0x544552 => Kind::Ter,
        0x454e44 => Kind::End,
        _ => Kind::Empty,
    }
}

// The kind that six bytes name, under atoms only or not.
fn named_by(atoms: bool, key: u64) -> Kind
    ensures { result ≡ kind_by_key key (specs.names_by atoms) }
{
    if atoms { named_kept(key) } else { named(key) }
}

// Whether the line is the six bytes ENDMDL, and they end a model.
fn ends_model(mode: Mode, line: &[u8]) -> bool
    ensures { result ≡ specs.ends_model mode line.now }
{
    match mode {
        Mode::Crate => false,
        Mode::WwPdb => line == b"ENDMDL".as_slice(),
    }
}

// The kind of a line, under atoms only or not, in a mode, by its name among all.
fn any_kind(atoms: bool, mode: Mode, line: &[u8]) -> Kind
    ensures { result ≡ specs.kind_of atoms mode line.now }
{
    if 6 < line.len() {
        return named_by(atoms, six(line));
    }
    if ends_model(mode, line) {
        return Kind::Endmdl;
    }
    if 2 < line.len() {
        return named_short(three(line));
    }
    Kind::Empty
}

// Whether a line begins with four bytes that make one number and two that make another, the first of each in the lowest place, as a processor has
// them from memory at once.
fn begins(line: &[u8], front: u32, behind: u16) -> bool
    requires { 6 ≤ length line.now }
    ensures { result ≡ (eqb (four_of line.now) front && eqb (two_of line.now) behind) }
{
    u32::from_le_bytes([line[0], line[1], line[2], line[3]]) == front
        && u16::from_le_bytes([line[4], line[5]]) == behind
}

// The kind of a line, under atoms only or not, in a mode. Nearly every line of a file is an atom. Apart from the look among all names, which is
// large, that one is told where the kind is asked for; and as what is found among all goes through a local, an atom's kind needs no place in memory.
pub fn kind_of(atoms: bool, mode: Mode, line: &[u8]) -> Kind
    ensures { result ≡ specs.kind_of atoms mode line.now }
{
    if line.len() < 7 {
        let short = any_kind(atoms, mode, line);
        return short;
    }
    // ATOM
    if begins(line, 0x4d4f5441, 0x2020) {
        return Kind::Atom;
    }
    // HETATM
    if begins(line, 0x41544548, 0x4d54) {
        return Kind::Hetatm;
    }
    let other = any_kind(atoms, mode, line);
    other
}
