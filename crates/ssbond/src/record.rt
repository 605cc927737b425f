// SSBOND.
ghost use Rattle.std.specs.Prelude.{◌≡◌};

use line::columns::Columns;
use line::text::{Character, Text};

// One side of a disulfide bond.
#[derive(Clone, Copy)]
pub struct Residue {
    pub name: Text,
    pub chain: Character,
    pub number: i64,
    pub insertion: Character,
}

impl Residue {
    pub fn new(name: Text, chain: Character, number: i64, insertion: Character) -> Self
        ensures { result ≡ record { name = name; chain = chain; number = number; insertion = insertion } }
    {
        Residue {
            name,
            chain,
            number,
            insertion,
        }
    }
}

// The columns of one side.
#[derive(Clone, Copy)]
pub struct ResidueAt {
    pub name: Columns,
    pub chain: u16,
    pub number: Columns,
    pub insertion: u16,
}

// The symmetry operators and the bond's length. The places are those of the length: how many digits stood behind its point, 0 where it is its
// default.
#[derive(Clone, Copy)]
pub struct Bond {
    pub first: Text,
    pub second: Text,
    pub length: f64,
    pub places: u8,
}

// An SSBOND. Only a line of 78 bytes or more has the tail.
#[derive(Clone, Copy)]
pub struct SSBond {
    pub first: Residue,
    pub second: Residue,
    pub tail: Option<Bond>,
}

impl SSBond {
    pub const FIRST: ResidueAt = ResidueAt {
        name: Columns { start: 11, end: 14 },
        chain: 15,
        number: Columns { start: 17, end: 21 },
        insertion: 21,
    };

    pub const SECOND: ResidueAt = ResidueAt {
        name: Columns { start: 25, end: 28 },
        chain: 29,
        number: Columns { start: 31, end: 35 },
        insertion: 35,
    };

    pub const OPERATOR: Columns = Columns { start: 59, end: 65 };

    pub const OTHER_OPERATOR: Columns = Columns { start: 66, end: 72 };

    pub const LENGTH: Columns = Columns { start: 73, end: 78 };

    pub fn new(first: Residue, second: Residue, tail: Option<Bond>) -> Self
        ensures { result ≡ record { first = first; second = second; tail = tail } }
    {
        SSBond {
            first,
            second,
            tail,
        }
    }
}
