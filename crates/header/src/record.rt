// HEADER.
ghost use Rattle.std.specs.Prelude.{◌≡◌};

use line::columns::Columns;
use line::text::Text;

// A HEADER: its texts stand as they are.
#[derive(Clone, Copy)]
pub struct Header {
    pub classification: Text,
    pub date: Text,
    pub code: Text,
}

impl Header {
    pub const CLASSIFICATION: Columns = Columns { start: 10, end: 50 };

    pub const DATE: Columns = Columns { start: 50, end: 59 };

    pub const CODE: Columns = Columns { start: 62, end: 66 };

    pub fn new(classification: Text, date: Text, code: Text) -> Self
        ensures { result ≡ record { classification = classification; date = date; code = code } }
    {
        Header {
            classification,
            date,
            code,
        }
    }
}
