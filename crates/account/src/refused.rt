// Why a line wasn't read, and the part of it where that shows.
ghost use Rattle.std.specs.Prelude.{◌≡◌};
ghost use Rattle.page.specs.Page.{page, put};
ghost use Rattle.account.specs.Account as specs;

use crate::text::{put_line, put_numbered};
use lexitem::answer::Refusal;
use line::columns::from_column;
use page::{put_bytes, put_unsigned};

fn put_plural(out: &mut [u8], at: usize, n: usize) -> usize
    ensures { page out.new result ≡ put (page out.old at) (specs.plural n) }
{
    if n == 1 {
        return at;
    }
    put_bytes(out, at, b"s")
}

// A place as a column.
fn column_of(place: usize) -> usize
    ensures { result ≡ specs.column_of place }
{
    place.min(1024) + 1
}

fn put_long(out: &mut [u8], at: usize, size: usize) -> usize
    ensures { page out.new result ≡ put (page out.old at) (specs.too_long size) }
{
    let plural = put_numbered(out, at, b"it has ", size, b" byte");
    let end = put_plural(out, plural, size);
    put_bytes(out, end, b" behind column 1024, the last that is read\n")
}

fn put_high(out: &mut [u8], at: usize, place: usize) -> usize
    ensures { page out.new result ≡ put (page out.old at) (specs.high_byte place) }
{
    let column = column_of(place);
    put_numbered(out, at, b"the byte in column ", column, b" is above 127\n")
}

fn put_early(out: &mut [u8], at: usize, size: usize) -> usize
    ensures { page out.new result ≡ put (page out.old at) (specs.too_early size) }
{
    let plural = put_numbered(out, at, b", ", size, b" column");
    let end = put_plural(out, plural, size);
    put_bytes(out, end, b" too early\n")
}

fn put_short(out: &mut [u8], at: usize, place: usize, size: usize) -> usize
    ensures { page out.new result ≡ put (page out.old at) (specs.too_short place size) }
{
    let column = put_bytes(out, at, b"it ends after column ");
    let end = put_unsigned(out, column, place as u64);
    put_early(out, end, size)
}

// The sentence for a refusal that needs no number.
fn put_other(out: &mut [u8], at: usize, number: usize) -> usize
    ensures { page out.new result ≡ put (page out.old at) (specs.otherwise number) }
{
    if number == 4 {
        return put_bytes(out, at, b"a HEADER line that ends before column 66\n");
    }
    if number == 5 {
        return put_bytes(
            out,
            at,
            b"a REMARK line with text in column 80 or behind it\n",
        );
    }
    put_bytes(out, at, b"it was refused\n")
}

// The sentence for a refusal's number.
fn put_why(out: &mut [u8], at: usize, number: usize, place: usize, size: usize) -> usize
    ensures { page out.new result ≡ put (page out.old at) (specs.why number place size) }
{
    if number == 2 {
        return put_long(out, at, size);
    }
    if number == 3 {
        return put_high(out, at, place);
    }
    if number == 6 {
        return put_short(out, at, place, size);
    }
    put_other(out, at, number)
}

// Where the part of a line that is shown begins.
fn shown_from(place: usize) -> usize
    ensures { result ≡ specs.shown_from place }
{
    if place < 100 {
        return 0;
    }
    place - 60
}

// The part around the place.
fn put_around(out: &mut [u8], at: usize, line: &[u8], number: usize, place: usize) -> usize
    ensures { page out.new result ≡ put (page out.old at) (specs.around line.now number place) }
{
    if number == 2 {
        return at;
    }
    put_line(out, at, from_column(line, shown_from(place)))
}

// What there is to say of a refused line.
pub(crate) fn put_refused(
    out: &mut [u8],
    at: usize,
    line: &[u8],
    number: usize,
    refusal: Refusal,
) -> usize
    ensures { page out.new result ≡ put (page out.old at) (specs.refused_rows number line.now refusal) }
{
    let why = put_numbered(out, at, b"line ", number, b": not read: ");
    let part = put_why(out, why, refusal.number, refusal.place, refusal.length);
    put_around(out, part, line, refusal.number, refusal.place)
}
