// The rows of SEQRES.
ghost use Rattle.std.specs.Prelude.{◌<◌, ◌≡◌};
ghost use Rattle.row.specs.Rows.{rows_of};
ghost use Rattle.seqres.specs.Seqres.{triple_row, seqres_fields};

use crate::record::Seqres;
use row::{Row, Rows, Value};
use std::array::from_fn;

// The row of a residue name, the first having index 0.
#[tactic(auto, unfolding(crate::specs::Seqres::triple_row, crate::specs::Seqres::triple_of))]
fn triple_row(seqres: Seqres, index: usize) -> Row
    requires { index < 13 }
    ensures { result ≡ triple_row seqres.triples index }
{
    let column = (Seqres::FIRST + Seqres::STEP * index) as u16;
    let text = seqres.triple(index);
    Row(
        column,
        text.map_or(Value::Nothing, |text| Value::Words(text)),
    )
}

pub fn seqres_rows(seqres: Seqres) -> Rows
    ensures { result ≡ rows_of (seqres_fields seqres) }
{
    let list = from_fn(
        |i| -> Row
            requires { i < 16 }
        {
            match i {
                0 => Row(Seqres::SERIAL.start, Value::Unsigned(seqres.serial)),
                1 => Row(Seqres::CHAIN, Value::One(seqres.chain)),
                2 => Row(Seqres::RESIDUES.start, Value::Unsigned(seqres.residues)),
                _ => triple_row(seqres, i - 3),
            }
        },
    );
    Rows { list }
}
