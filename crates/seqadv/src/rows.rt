// The rows of SEQADV.
ghost use Rattle.std.specs.Prelude.{◌≡◌};
ghost use Rattle.row.specs.Rows.{rows_of};
ghost use Rattle.seqadv.specs.Seqadv.{seqadv_fields};

use crate::record::Seqadv;
use row::{Row, Rows, Value};

pub fn seqadv_rows(seqadv: Seqadv) -> Rows
    ensures { result ≡ rows_of (seqadv_fields seqadv) }
{
    let target = seqadv.target;
    let name = target.map_or(Value::Nothing, |target| Value::Words(target.name));
    let number = target.map_or(Value::Nothing, |target| Value::Signed(target.number));
    Rows::of(&[
        Row(Seqadv::CODE.start, Value::Words(seqadv.code)),
        Row(Seqadv::RESIDUE.start, Value::Words(seqadv.residue)),
        Row(Seqadv::CHAIN.start, Value::Words(seqadv.chain)),
        Row(Seqadv::NUMBER.start, Value::Signed(seqadv.number)),
        Row(Seqadv::INSERTION, Value::One(seqadv.insertion)),
        Row(Seqadv::DATABASE.start, Value::Words(seqadv.database)),
        Row(Seqadv::ACCESSION.start, Value::Words(seqadv.accession)),
        Row(Seqadv::TARGET_NAME.start, name),
        Row(Seqadv::TARGET_NUMBER.start, number),
        Row(Seqadv::COMMENT, Value::Words(seqadv.comment)),
    ])
}
