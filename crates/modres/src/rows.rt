// The rows of MODRES.
ghost use Rattle.std.specs.Prelude.{◌≡◌};
ghost use Rattle.row.specs.Rows.{rows_of};
ghost use Rattle.modres.specs.Modres.{modres_fields};

use crate::record::Modres;
use row::{Row, Rows, Value};

pub fn modres_rows(modres: Modres) -> Rows
    ensures { result ≡ rows_of (modres_fields modres) }
{
    Rows::of(&[
        Row(Modres::CODE.start, Value::Words(modres.code)),
        Row(Modres::RESIDUE.start, Value::Words(modres.residue)),
        Row(Modres::CHAIN, Value::One(modres.chain)),
        Row(Modres::NUMBER.start, Value::Signed(modres.number)),
        Row(Modres::INSERTION, Value::One(modres.insertion)),
        Row(Modres::STANDARD.start, Value::Words(modres.standard)),
        Row(Modres::COMMENT, Value::Words(modres.comment)),
    ])
}
