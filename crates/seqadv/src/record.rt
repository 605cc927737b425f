// SEQADV.
ghost use Rattle.std.specs.Prelude.{◌≡◌};

use line::columns::Columns;
use line::text::{Character, Text};

// A residue of the database.
#[derive(Clone, Copy)]
pub struct Target {
    pub name: Text,
    pub number: i64,
}

// A SEQADV, with the residue of the database if the line names one.
#[derive(Clone, Copy)]
pub struct Seqadv {
    pub code: Text,
    pub residue: Text,
    pub chain: Text,
    pub number: i64,
    pub insertion: Character,
    pub database: Text,
    pub accession: Text,
    pub target: Option<Target>,
    pub comment: Text,
}

impl Seqadv {
    pub const CODE: Columns = Columns { start: 7, end: 11 };

    pub const RESIDUE: Columns = Columns { start: 12, end: 15 };

    pub const CHAIN: Columns = Columns { start: 16, end: 17 };

    pub const NUMBER: Columns = Columns { start: 18, end: 22 };

    pub const INSERTION: u16 = 22;

    pub const DATABASE: Columns = Columns { start: 24, end: 28 };

    pub const ACCESSION: Columns = Columns { start: 29, end: 38 };

    pub const TARGET: Columns = Columns { start: 39, end: 48 };

    pub const TARGET_NAME: Columns = Columns { start: 39, end: 42 };

    pub const TARGET_NUMBER: Columns = Columns { start: 43, end: 48 };

    pub const COMMENT: u16 = 49;

    pub fn new(
        code: Text,
        residue: Text,
        chain: Text,
        number: i64,
        insertion: Character,
        database: Text,
        accession: Text,
        target: Option<Target>,
        comment: Text,
    ) -> Self
        ensures { result ≡ record { code = code; residue = residue; chain = chain; number = number; insertion = insertion; database = database; accession = accession; target = target; comment = comment } }
    {
        Seqadv {
            code,
            residue,
            chain,
            number,
            insertion,
            database,
            accession,
            target,
            comment,
        }
    }
}
