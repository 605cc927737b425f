// The rows of SSBOND.
ghost use Rattle.std.specs.Prelude.{◌≡◌};
ghost use Rattle.row.specs.Rows.{rows_of};
ghost use Rattle.ssbond.specs.Ssbond.{residue_fields, ssbond_fields};

use crate::record::{Residue, ResidueAt, SSBond};
use row::{Row, Rows, Value};

// Those of one side.
fn residue_rows(at: ResidueAt, residue: Residue) -> [Row; 4]
    ensures { result ≡ residue_fields at residue }
{
    [
        Row(at.name.start, Value::Words(residue.name)),
        Row(at.chain, Value::One(residue.chain)),
        Row(at.number.start, Value::Signed(residue.number)),
        Row(at.insertion, Value::One(residue.insertion)),
    ]
}

pub fn ssbond_rows(ssbond: SSBond) -> Rows
    ensures { result ≡ rows_of (ssbond_fields ssbond) }
{
    let [name, chain, number, insertion] = residue_rows(SSBond::FIRST, ssbond.first);
    let [other_name, other_chain, other_number, other_insertion] = residue_rows(
        SSBond::SECOND,
        ssbond.second,
    );
    let tail = ssbond.tail;
    let operator = tail.map_or(Value::Nothing, |bond| Value::Words(bond.first));
    let other_operator = tail.map_or(Value::Nothing, |bond| Value::Words(bond.second));
    let length = tail.map_or(Value::Nothing, |bond| Value::Real(bond.length, bond.places));
    Rows::of(&[
        name,
        chain,
        number,
        insertion,
        other_name,
        other_chain,
        other_number,
        other_insertion,
        Row(SSBond::OPERATOR.start, operator),
        Row(SSBond::OTHER_OPERATOR.start, other_operator),
        Row(SSBond::LENGTH.start, length),
    ])
}
