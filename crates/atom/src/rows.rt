// The rows of ATOM, HETATM and ANISOU.
ghost use Rattle.std.specs.Prelude.{◌≡◌};
ghost use Rattle.row.specs.Rows.{rows_of};
ghost use Rattle.atom.specs.Atom.{atom_fields, anisou_fields};

use crate::record::{Anisou, Atom, Basics, Factors, Position};
use row::{Row, Rows, Value};

pub fn atom_rows(atom: Atom) -> Rows
    ensures { result ≡ rows_of (atom_fields atom) }
{
    let basics = atom.basics;
    let position = atom.position;
    let places = atom.places;
    let coordinates = places.position;
    Rows::of(&[
        Row(Basics::SERIAL.start, Value::Unsigned(basics.serial)),
        Row(Basics::NAME.start, Value::Words(basics.name)),
        Row(Basics::ALTERNATE, Value::One(basics.alternate)),
        Row(Basics::RESIDUE.start, Value::Words(basics.residue)),
        Row(Basics::CHAIN, Value::One(basics.chain)),
        Row(Basics::NUMBER.start, Value::Signed(basics.number)),
        Row(Basics::INSERTION, Value::One(basics.insertion)),
        Row(Position::X.start, Value::Real(position.x, coordinates.x)),
        Row(Position::Y.start, Value::Real(position.y, coordinates.y)),
        Row(Position::Z.start, Value::Real(position.z, coordinates.z)),
        Row(
            Atom::OCCUPANCY.start,
            Value::Real(atom.occupancy, places.occupancy),
        ),
        Row(
            Atom::BFACTOR.start,
            Value::Real(atom.bfactor, places.bfactor),
        ),
        Row(Basics::SEGMENT.start, Value::Words(basics.segment)),
        Row(Basics::ELEMENT.start, Value::Words(basics.element)),
        Row(Basics::CHARGE.start, Value::Signed(basics.charge)),
    ])
}

pub fn anisou_rows(anisou: Anisou) -> Rows
    ensures { result ≡ rows_of (anisou_fields anisou) }
{
    let basics = anisou.basics;
    let factors = anisou.factors;
    Rows::of(&[
        Row(Basics::SERIAL.start, Value::Unsigned(basics.serial)),
        Row(Basics::NAME.start, Value::Words(basics.name)),
        Row(Basics::ALTERNATE, Value::One(basics.alternate)),
        Row(Basics::RESIDUE.start, Value::Words(basics.residue)),
        Row(Basics::CHAIN, Value::One(basics.chain)),
        Row(Basics::NUMBER.start, Value::Signed(basics.number)),
        Row(Basics::INSERTION, Value::One(basics.insertion)),
        Row(Factors::U11.start, Value::Factor(factors.u11)),
        Row(Factors::U22.start, Value::Factor(factors.u22)),
        Row(Factors::U33.start, Value::Factor(factors.u33)),
        Row(Factors::U12.start, Value::Factor(factors.u12)),
        Row(Factors::U13.start, Value::Factor(factors.u13)),
        Row(Factors::U23.start, Value::Factor(factors.u23)),
        Row(Basics::SEGMENT.start, Value::Words(basics.segment)),
        Row(Basics::ELEMENT.start, Value::Words(basics.element)),
        Row(Basics::CHARGE.start, Value::Signed(basics.charge)),
    ])
}
