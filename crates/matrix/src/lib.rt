// Rows put to use: those of SCALE, ORIGX or MTRIX are collected by their numbers, and the matrix that three of them make is applied to a position.
// Kinds and serials aren't told apart: who collects chooses which rows are handed in.
#![tactic(auto)]

ghost use Rattle.std.specs.Prelude.{◌≡◌};
ghost use Rattle.matrix.specs.Apply as apply;
ghost use Rattle.matrix.specs.Rows as specs;

use atom::record::Position;
use transformation::record::Transformation;

// What was collected so far: the rows that are set.
#[derive(Clone, Copy)]
pub struct Rows {
    pub first: Option<Transformation>,
    pub second: Option<Transformation>,
    pub third: Option<Transformation>,
}

// Three rows that are set.
#[derive(Clone, Copy)]
pub struct Matrix {
    pub first: Transformation,
    pub second: Transformation,
    pub third: Transformation,
}

// A matrix has no row of that number. The rows are as they were.
#[derive(Clone, Copy)]
pub struct NoSuchRow {
    pub rows: Rows,
}

impl Rows {
    pub fn none() -> Self
        ensures { result ≡ specs.no_rows }
    {
        Rows {
            first: None,
            second: None,
            third: None,
        }
    }
}

// The rows with one more. A later row replaces an earlier one of its number.
pub fn with_row(rows: Rows, number: usize, row: Transformation) -> Result<Rows, NoSuchRow>
    ensures { result ≡ specs.with_row rows number row }
{
    let set = Some(row);
    match number {
        0 => Ok(Rows { first: set, ..rows }),
        1 => Ok(Rows {
            second: set,
            ..rows
        }),
        2 => Ok(Rows { third: set, ..rows }),
        _ => Err(NoSuchRow { rows }),
    }
}

// The matrix is handed out exactly when all three rows are set.
pub fn whole(rows: Rows) -> Option<Matrix>
    ensures { result ≡ specs.whole rows }
{
    Some(Matrix {
        first: rows.first?,
        second: rows.second?,
        third: rows.third?,
    })
}

fn coordinate(row: Transformation, position: Position) -> f64
    ensures { result ≡ apply.coordinate row position }
{
    ((row.a * position.x + row.b * position.y) + row.c * position.z) + row.d
}

pub fn apply(matrix: Matrix, position: Position) -> Position
    ensures { result ≡ apply.applied matrix position }
{
    Position::new(
        coordinate(matrix.first, position),
        coordinate(matrix.second, position),
        coordinate(matrix.third, position),
    )
}
