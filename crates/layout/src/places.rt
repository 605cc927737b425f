// How the places of a record's reals are put, a byte each.
ghost use Rattle.std.specs.Prelude.{◌≡◌, length};
ghost use Rattle.layout.specs.Places as specs;
ghost use Rattle.page.specs.Page.{page, put};

use page::put_byte;
use row::{Row, Value};

// A row that isn't a real's puts nothing.
fn put_place(out: &mut [u8], at: usize, row: Row) -> usize
    ensures { page out.new result ≡ put (page out.old at) (specs.row_places row) }
{
    if let Value::Real(_, places) = row.1 {
        return put_byte(out, at, places);
    }
    at
}

pub fn put_places(out: &mut [u8], at: usize, rows: [Row; 16]) -> usize
    ensures { page out.new result ≡ put (page out.old at) (specs.places_of rows) }
{
    let mut next = at;
    for row in &rows {
        next = put_place(out, next, *row);
    }
    next
}

// How many there are: put on no bytes, they are counted alone.
pub fn count_places(rows: [Row; 16]) -> usize
    ensures { result ≡ length (specs.places_of rows) }
{
    let mut none = [0u8; 0];
    put_places(&mut none, 0, rows)
}
