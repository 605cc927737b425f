// What a row of a listing looks like, byte for byte: a field's, a label's with its number or its three, and the
// two that every listing begins with.
#![tactic(auto)]

ghost use Rattle.std.specs.Prelude.{◌≡◌};
ghost use Rattle.layout.specs.Label.{head_rows, number_row, three_row};
ghost use Rattle.page.specs.Page.{page, put};

pub mod fault;
pub mod places;
pub mod rows;

use page::{put_byte, put_bytes, put_unsigned};

// A label, a number and the end of the row.
pub fn put_number(out: &mut [u8], at: usize, label: &[u8], n: u64) -> usize
    ensures { page out.new result ≡ put (page out.old at) (number_row label.now n) }
{
    let number = put_bytes(out, at, label);
    let end = put_unsigned(out, number, n);
    put_byte(out, end, b'\n')
}

// A label, three numbers with commas between them, and the end of the row.
pub fn put_three(out: &mut [u8], at: usize, label: &[u8], a: u64, b: u64, c: u64) -> usize
    ensures { page out.new result ≡ put (page out.old at) (three_row label.now a b c) }
{
    let first = put_bytes(out, at, label);
    let comma = put_unsigned(out, first, a);
    let second = put_byte(out, comma, b',');
    let other = put_unsigned(out, second, b);
    let third = put_byte(out, other, b',');
    let end = put_unsigned(out, third, c);
    put_byte(out, end, b'\n')
}

// What every listing begins with: the record's name, and the line's number.
pub fn put_head(out: &mut [u8], at: usize, name: &[u8], number: u64) -> usize
    ensures { page out.new result ≡ put (page out.old at) (head_rows name.now number) }
{
    let label = put_bytes(out, at, b"record=");
    let feed = put_bytes(out, label, name);
    let line = put_byte(out, feed, b'\n');
    put_number(out, line, b"line=", number)
}
