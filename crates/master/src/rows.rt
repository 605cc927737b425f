// The rows of MASTER.
ghost use Rattle.std.specs.Prelude.{◌≡◌};
ghost use Rattle.row.specs.Rows.{rows_of};
ghost use Rattle.master.specs.Master.{master_fields};

use crate::record::Master;
use row::{Row, Rows, Value};

pub fn master_rows(master: Master) -> Rows
    ensures { result ≡ rows_of (master_fields master) }
{
    Rows::of(&[
        Row(Master::REMARK.start, Value::Unsigned(master.remark)),
        Row(Master::EMPTY.start, Value::Unsigned(master.empty)),
        Row(Master::HET.start, Value::Unsigned(master.het)),
        Row(Master::HELIX.start, Value::Unsigned(master.helix)),
        Row(Master::SHEET.start, Value::Unsigned(master.sheet)),
        Row(Master::TURN.start, Value::Unsigned(master.turn)),
        Row(Master::SITE.start, Value::Unsigned(master.site)),
        Row(Master::XFORM.start, Value::Unsigned(master.xform)),
        Row(Master::COORD.start, Value::Unsigned(master.coord)),
        Row(Master::TER.start, Value::Unsigned(master.ter)),
        Row(Master::CONNECT.start, Value::Unsigned(master.connect)),
        Row(Master::SEQ.start, Value::Unsigned(master.seq)),
    ])
}
