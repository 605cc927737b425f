// ATOM, HETATM and ANISOU.
ghost use Rattle.std.specs.Prelude.{◌≡◌};

use line::columns::Columns;
use line::text::{Character, Text};

// What ATOM, HETATM and ANISOU share.
#[derive(Clone, Copy)]
pub struct Basics {
    pub serial: u64,
    pub name: Text,
    pub alternate: Character,
    pub residue: Text,
    pub chain: Character,
    pub number: i64,
    pub insertion: Character,
    pub segment: Text,
    pub element: Text,
    pub charge: i64,
}

impl Basics {
    pub const SERIAL: Columns = Columns { start: 6, end: 11 };

    pub const NAME: Columns = Columns { start: 12, end: 16 };

    pub const ALTERNATE: u16 = 16;

    pub const RESIDUE: Columns = Columns { start: 17, end: 20 };

    pub const CHAIN: u16 = 21;

    pub const NUMBER: Columns = Columns { start: 22, end: 26 };

    pub const INSERTION: u16 = 26;

    pub const SEGMENT: Columns = Columns { start: 72, end: 76 };

    pub const ELEMENT: Columns = Columns { start: 76, end: 78 };

    pub const CHARGE: Columns = Columns { start: 78, end: 80 };

    pub fn new(
        serial: u64,
        name: Text,
        alternate: Character,
        residue: Text,
        chain: Character,
        number: i64,
        insertion: Character,
        segment: Text,
        element: Text,
        charge: i64,
    ) -> Self
        ensures { result ≡ record { serial = serial; name = name; alternate = alternate; residue = residue; chain = chain; number = number; insertion = insertion; segment = segment; element = element; charge = charge } }
    {
        Basics {
            serial,
            name,
            alternate,
            residue,
            chain,
            number,
            insertion,
            segment,
            element,
            charge,
        }
    }
}

// A position.
#[derive(Clone, Copy)]
pub struct Position {
    pub x: f64,
    pub y: f64,
    pub z: f64,
}

impl Position {
    pub const X: Columns = Columns { start: 30, end: 38 };

    pub const Y: Columns = Columns { start: 38, end: 46 };

    pub const Z: Columns = Columns { start: 46, end: 54 };

    pub fn new(x: f64, y: f64, z: f64) -> Self
        ensures { result ≡ record { x = x; y = y; z = z } }
    {
        Position { x, y, z }
    }
}

// How many digits stood behind the point of each coordinate, 0 where it is its default. They stand beside the position, since those who write one
// take its numbers alone.
#[derive(Clone, Copy)]
pub struct PositionPlaces {
    pub x: u8,
    pub y: u8,
    pub z: u8,
}

// The same of each real of an atom.
#[derive(Clone, Copy)]
pub struct AtomPlaces {
    pub position: PositionPlaces,
    pub occupancy: u8,
    pub bfactor: u8,
}

// An ATOM, or a HETATM if hetero.
#[derive(Clone, Copy)]
pub struct Atom {
    pub hetero: bool,
    pub basics: Basics,
    pub position: Position,
    pub occupancy: f64,
    pub bfactor: f64,
    pub places: AtomPlaces,
}

impl Atom {
    pub const OCCUPANCY: Columns = Columns { start: 54, end: 60 };

    pub const BFACTOR: Columns = Columns { start: 60, end: 66 };

    pub const OCCUPANCY_DEFAULT: f64 = 1.0;

    pub fn new(
        hetero: bool,
        basics: Basics,
        position: Position,
        occupancy: f64,
        bfactor: f64,
        places: AtomPlaces,
    ) -> Self
        ensures { result ≡ record { hetero = hetero; basics = basics; position = position; occupancy = occupancy; bfactor = bfactor; places = places } }
    {
        Atom {
            hetero,
            basics,
            position,
            occupancy,
            bfactor,
            places,
        }
    }
}

// The six different ones of the nine temperature factors.
#[derive(Clone, Copy)]
pub struct Factors {
    pub u11: f64,
    pub u22: f64,
    pub u33: f64,
    pub u12: f64,
    pub u13: f64,
    pub u23: f64,
}

impl Factors {
    pub const U11: Columns = Columns { start: 28, end: 35 };

    pub const U22: Columns = Columns { start: 35, end: 42 };

    pub const U33: Columns = Columns { start: 42, end: 49 };

    pub const U12: Columns = Columns { start: 49, end: 56 };

    pub const U13: Columns = Columns { start: 56, end: 63 };

    pub const U23: Columns = Columns { start: 63, end: 70 };

    pub fn new(u11: f64, u22: f64, u33: f64, u12: f64, u13: f64, u23: f64) -> Self
        ensures { result ≡ record { u11 = u11; u22 = u22; u33 = u33; u12 = u12; u13 = u13; u23 = u23 } }
    {
        Factors {
            u11,
            u22,
            u33,
            u12,
            u13,
            u23,
        }
    }
}

// An ANISOU.
#[derive(Clone, Copy)]
pub struct Anisou {
    pub basics: Basics,
    pub factors: Factors,
}

impl Anisou {
    pub fn new(basics: Basics, factors: Factors) -> Self
        ensures { result ≡ record { basics = basics; factors = factors } }
    {
        Anisou { basics, factors }
    }
}
