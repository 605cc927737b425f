// MODRES.
ghost use Rattle.std.specs.Prelude.{◌≡◌};

use line::columns::Columns;
use line::text::{Character, Text};

// A MODRES.
#[derive(Clone, Copy)]
pub struct Modres {
    pub code: Text,
    pub residue: Text,
    pub chain: Character,
    pub number: i64,
    pub insertion: Character,
    pub standard: Text,
    pub comment: Text,
}

impl Modres {
    pub const CODE: Columns = Columns { start: 7, end: 11 };

    pub const RESIDUE: Columns = Columns { start: 12, end: 15 };

    pub const CHAIN: u16 = 16;

    pub const NUMBER: Columns = Columns { start: 18, end: 22 };

    pub const INSERTION: u16 = 22;

    pub const STANDARD: Columns = Columns { start: 24, end: 27 };

    pub const COMMENT: u16 = 29;

    pub fn new(
        code: Text,
        residue: Text,
        chain: Character,
        number: i64,
        insertion: Character,
        standard: Text,
        comment: Text,
    ) -> Self
        ensures { result ≡ record { code = code; residue = residue; chain = chain; number = number; insertion = insertion; standard = standard; comment = comment } }
    {
        Modres {
            code,
            residue,
            chain,
            number,
            insertion,
            standard,
            comment,
        }
    }
}
