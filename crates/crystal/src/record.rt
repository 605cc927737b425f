// CRYST1.
ghost use Rattle.std.specs.Prelude.{◌≡◌};

use line::columns::Columns;
use line::text::Text;

// The lengths and angles of a unit cell.
#[derive(Clone, Copy)]
pub struct Cell {
    pub a: f64,
    pub b: f64,
    pub c: f64,
    pub alpha: f64,
    pub beta: f64,
    pub gamma: f64,
}

impl Cell {
    pub const A: Columns = Columns { start: 6, end: 15 };

    pub const B: Columns = Columns { start: 15, end: 24 };

    pub const C: Columns = Columns { start: 24, end: 33 };

    pub const ALPHA: Columns = Columns { start: 33, end: 40 };

    pub const BETA: Columns = Columns { start: 40, end: 47 };

    pub const GAMMA: Columns = Columns { start: 47, end: 54 };

    pub fn new(a: f64, b: f64, c: f64, alpha: f64, beta: f64, gamma: f64) -> Self
        ensures { result ≡ record { a = a; b = b; c = c; alpha = alpha; beta = beta; gamma = gamma } }
    {
        Cell {
            a,
            b,
            c,
            alpha,
            beta,
            gamma,
        }
    }
}

// How many digits stood behind the point of each, 0 where it is its default. They stand beside the cell, since those who write one take its
// numbers alone.
#[derive(Clone, Copy)]
pub struct CellPlaces {
    pub a: u8,
    pub b: u8,
    pub c: u8,
    pub alpha: u8,
    pub beta: u8,
    pub gamma: u8,
}

// A CRYST1.
#[derive(Clone, Copy)]
pub struct Crystal {
    pub cell: Cell,
    pub places: CellPlaces,
    pub spacegroup: Text,
    pub z: u64,
}

impl Crystal {
    pub const SPACEGROUP: Columns = Columns { start: 55, end: 66 };

    // Z stands from this column to the end of the line.
    pub const Z: u16 = 66;

    pub const Z_DEFAULT: u64 = 1;

    pub fn new(cell: Cell, places: CellPlaces, spacegroup: Text, z: u64) -> Self
        ensures { result ≡ record { cell = cell; places = places; spacegroup = spacegroup; z = z } }
    {
        Crystal {
            cell,
            places,
            spacegroup,
            z,
        }
    }
}
