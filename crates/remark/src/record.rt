// REMARK.
ghost use Rattle.std.specs.Prelude.{◌≡◌};

use line::columns::Columns;
use line::text::Text;

// A REMARK: its number, and its text with the end trimmed.
#[derive(Clone, Copy)]
pub struct Remark {
    pub number: u64,
    pub text: Text,
}

impl Remark {
    pub const NUMBER: Columns = Columns { start: 7, end: 10 };

    pub const TEXT: u16 = 11;

    pub const LIMIT: usize = 80;

    pub fn new(number: u64, text: Text) -> Self
        ensures { result ≡ record { number = number; text = text } }
    {
        Remark { number, text }
    }
}
