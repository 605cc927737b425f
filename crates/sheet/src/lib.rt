// A line of 80 bytes, drawn field by field on bytes of one's own and then copied whole. What doesn't fit is told at the end: a pen keeps the
// columns of the first field that doesn't, so that no field needs a branch of its own.
#![tactic(auto)]

ghost use Rattle.std.specs.Prelude.{◌≡◌, ◌-◌};
ghost use Rattle.cell.specs.Cell.{Puts};
ghost use Rattle.cell.specs.Text.{blanks};
ghost use Rattle.page.specs.Page.{page, put};
ghost use Rattle.sheet.specs.Draft as specs;
ghost use Rattle.sheet.specs.Ink.{figure_bytes, figure_fits};
ghost use Rattle.sheet.specs.Ink.Ink.{figure as putFigure, words as putWords, lent as putLent};
ghost use Rattle.sheet.specs.Sheet.{◌holds◌};

use cell::text::put_blanks;
use cell::words::{put_charge, put_flag, put_lent, put_row, put_words};
use cell::{Put, put_factor, put_real, put_signed, put_unsigned};
use line::columns::Columns;
use page::put_bytes;

// What stands in a field, but for texts: a real with its places, one of ANISOU's six, MTRIX's `given`, a row from 0 on.
#[derive(Clone, Copy)]
pub enum Figure {
    Unsigned(u64),
    Signed(i64),
    Real(usize, f64),
    Factor(f64),
    Charge(i64),
    Given(bool),
    Row(usize),
}

// Where the next byte goes, and the columns of the first field that doesn't fit, if one doesn't.
#[derive(Clone, Copy)]
pub struct Pen {
    pub next: usize,
    pub miss: Option<Columns>,
}

// Why a line isn't written: a field doesn't fit its columns, or there is too little room.
#[derive(Clone, Copy)]
pub enum Unwritten {
    NoFit(Columns),
    NoRoom,
}

// The name at the front.
pub fn begin(out: &mut [u8], name: &[u8]) -> Pen
    ensures { specs.draft out.new result ≡ specs.begun out.old name.now }
{
    let next = put_bytes(out, 0, name);
    Pen { next, miss: None }
}

// Blanks up to a column.
fn fill(out: &mut [u8], next: usize, column: usize) -> usize
    ensures { page out.new result ≡ put (page out.old next) (blanks (column - next)) }
{
    if next < column {
        return put_blanks(out, next, column - next);
    }
    next
}

// The pen behind a field.
fn mark(pen: Pen, at: Columns, put: Put) -> Pen
    ensures { result ≡ specs.marked pen at put }
{
    let next = put.next;
    let miss = pen.miss;
    if put.fits {
        return Pen { next, miss };
    }
    Pen {
        next,
        miss: miss.or(Some(at)),
    }
}

fn put_figure(out: &mut [u8], at: usize, width: usize, figure: Figure) -> Put
    ensures { Puts (page out.old at) (figure_bytes width figure) (figure_fits width figure) out.new result }
{
    match figure {
        Figure::Unsigned(n) => put_unsigned(out, at, width, n),
        Figure::Signed(n) => put_signed(out, at, width, n),
        Figure::Real(places, x) => put_real(out, at, width, places, x),
        Figure::Factor(x) => put_factor(out, at, width, x),
        Figure::Charge(n) => put_charge(out, at, width, n),
        Figure::Given(given) => put_flag(out, at, width, given),
        Figure::Row(row) => put_row(out, at, width, row),
    }
}

// A figure in its columns. This and the next two differ in the call between `fill` and `mark`: one function that is handed that call as a closure
// would need what the closure promises as a clause, and is longer than all three.
pub fn draw_figure(out: &mut [u8], pen: Pen, at: Columns, figure: Figure) -> Pen
    ensures { specs.draft out.new result ≡ specs.drawn (specs.draft out.old pen) (at holds putFigure figure) }
{
    let start = fill(out, pen.next, at.start as usize);
    let put = put_figure(out, start, at.width() as usize, figure);
    mark(pen, at, put)
}

// A text at a side of its columns.
pub fn draw_words(out: &mut [u8], pen: Pen, at: Columns, left: bool, bytes: &[u8]) -> Pen
    ensures { specs.draft out.new result ≡ specs.drawn (specs.draft out.old pen) (at holds putWords left bytes.now) }
{
    let start = fill(out, pen.next, at.start as usize);
    let put = put_words(out, start, at.width() as usize, left, bytes);
    mark(pen, at, put)
}

// A text that fills its columns.
pub fn draw_lent(out: &mut [u8], pen: Pen, at: Columns, bytes: &[u8]) -> Pen
    ensures { specs.draft out.new result ≡ specs.drawn (specs.draft out.old pen) (at holds putLent bytes.now) }
{
    let start = fill(out, pen.next, at.start as usize);
    let put = put_lent(out, start, at.width() as usize, bytes);
    mark(pen, at, put)
}

// Blanks up to the end of the line.
pub fn rule_off(out: &mut [u8], pen: Pen) -> Pen
    ensures { specs.draft out.new result ≡ specs.filled (specs.draft out.old pen) 80 }
{
    let miss = pen.miss;
    let next = fill(out, pen.next, 80);
    Pen { next, miss }
}

// The line as it was drawn goes into the lent bytes, if every field fits and there is room. Else these stay as they are.
pub fn end(out: &mut [u8], line: &[u8], miss: Option<Columns>) -> Result<(), Unwritten>
    ensures { specs.Ends out.old line.now miss result out.new }
{
    if let Some(at) = miss {
        return Err(Unwritten::NoFit(at));
    }
    if out.len() < 80 {
        return Err(Unwritten::NoRoom);
    }
    let most = line.len().min(out.len());
    out[..most].copy_from_slice(&line[..most]);
    Ok(())
}
