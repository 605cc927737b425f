// The rows of HEADER.
ghost use Rattle.std.specs.Prelude.{◌≡◌};
ghost use Rattle.row.specs.Rows.{rows_of};
ghost use Rattle.header.specs.Header.{header_fields};

use crate::record::Header;
use row::{Row, Rows, Value};

pub fn header_rows(header: Header) -> Rows
    ensures { result ≡ rows_of (header_fields header) }
{
    Rows::of(&[
        Row(
            Header::CLASSIFICATION.start,
            Value::Words(header.classification),
        ),
        Row(Header::DATE.start, Value::Words(header.date)),
        Row(Header::CODE.start, Value::Words(header.code)),
    ])
}
