// The rows of REMARK.
ghost use Rattle.std.specs.Prelude.{◌≡◌};
ghost use Rattle.row.specs.Rows.{rows_of};
ghost use Rattle.remark.specs.Remark.{remark_fields};

use crate::record::Remark;
use row::{Row, Rows, Value};

pub fn remark_rows(remark: Remark) -> Rows
    ensures { result ≡ rows_of (remark_fields remark) }
{
    Rows::of(&[
        Row(Remark::NUMBER.start, Value::Unsigned(remark.number)),
        Row(Remark::TEXT, Value::Words(remark.text)),
    ])
}
