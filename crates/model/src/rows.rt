// The rows of MODEL.
ghost use Rattle.std.specs.Prelude.{◌≡◌};
ghost use Rattle.row.specs.Rows.{rows_of};
ghost use Rattle.model.specs.Model.{model_fields};

use crate::record::Model;
use row::{Row, Rows, Value};

pub fn model_rows(model: Model) -> Rows
    ensures { result ≡ rows_of (model_fields model) }
{
    let column = Model::column(model.mode);
    Rows::of(&[Row(column, Value::Unsigned(model.number))])
}
