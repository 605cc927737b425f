// The rows that tell what was done to a line.
ghost use Rattle.std.specs.Prelude.{◌≡◌, ◌++◌};
ghost use Rattle.page.specs.Page.{page, put};
ghost use Rattle.repair.specs.Rows as specs;

use line::columns::Columns;
use mend::cut::left_cut;
use page::{put_bytes, put_unsigned};

// The begin of a row: the line's number, and columns by their first and last.
pub fn put_columns(rows: &mut [u8], at: usize, number: usize, first: u64, last: u64) -> usize
    ensures { page rows.new result ≡ put (page rows.old at) (specs.columns_text number first last) }
{
    let name = put_bytes(rows, at, b"line ");
    let comma = put_unsigned(rows, name, number as u64);
    let start = put_bytes(rows, comma, b", columns ");
    let to = put_unsigned(rows, start, first);
    let end = put_bytes(rows, to, b" to ");
    put_unsigned(rows, end, last)
}

// What was done, by its number.
pub fn put_done(rows: &mut [u8], at: usize, what: u64) -> usize
    ensures { page rows.new result ≡ put (page rows.old at) (specs.done_text what) }
{
    if what == 1 {
        return put_bytes(rows, at, b": made ?\n");
    }
    put_bytes(rows, at, b": blanks put\n")
}

// The row of a change, by its word.
pub fn put_change(rows: &mut [u8], at: usize, number: usize, word: u64) -> usize
    ensures { page rows.new result ≡ put (page rows.old at) (specs.word_row number word) }
{
    let place = word % 65536;
    let size = word / 65536 % 65536;
    let done = put_columns(rows, at, number, place + 1, place + size);
    put_done(rows, done, word / 65536 / 65536)
}

// A row for each change.
pub fn put_changes(rows: &mut [u8], at: usize, number: usize, words: &[u64]) -> usize
    ensures { page rows.new result ≡ put (page rows.old at) (specs.word_rows number words.now) }
{
    let mut next = at;
    for word in words {
        next = put_change(rows, next, number, *word);
    }
    next
}

// The row of a line of so many bytes that cuts these columns.
pub fn put_cut(rows: &mut [u8], at: usize, number: usize, found: Columns, size: usize) -> usize
    ensures { page rows.new result ≡ put (page rows.old at) (specs.cut_row number found size) }
{
    let why = put_columns(rows, at, number, found.start as u64 + 1, found.end as u64);
    let many = put_bytes(rows, why, b": cut, so the line is left at ");
    let unit = put_unsigned(rows, many, size as u64);
    put_bytes(rows, unit, b" bytes\n")
}

// The row of a line of over 1,024 bytes.
pub fn put_over(rows: &mut [u8], at: usize, number: usize) -> usize
    ensures { page rows.new result ≡ put (page rows.old at) (specs.over_row number) }
{
    let name = put_bytes(rows, at, b"line ");
    let why = put_unsigned(rows, name, number as u64);
    put_bytes(rows, why, b": over 1,024 bytes, left as it is\n")
}

// All rows of a line whose changes these words are.
pub fn put_rows(line: &[u8], number: usize, words: &[u64], rows: &mut [u8]) -> usize
    ensures { page rows.new result ≡ put (page rows.old 0) (specs.word_rows number words.now ++ specs.cut_rows number line.now) }
{
    let next = put_changes(rows, 0, number, words);
    match left_cut(line) {
        Some(found) => put_cut(rows, next, number, found, line.len()),
        None => next,
    }
}
