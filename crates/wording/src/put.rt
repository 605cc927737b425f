// What a row of a record says, as numbers of 64 bits in lent words: two for each field that is present.
ghost use Rattle.std.specs.Prelude.{◌∷◌, [], ◌≤◌, ◌+◌, length};
ghost use Rattle.wording.specs.Fields as specs;
ghost use Rattle.wording.specs.Put.{Puts};

use crate::word::{byte_at, flag_word, head_word, signed_word, text_word};
use line::text::Character;
use page::bits_of;
use row::{Row, Value};

// Two words, one behind the other.
pub(crate) fn put_two(out: &mut [u64], at: usize, first: u64, second: u64) -> usize
    requires { at + 2 ≤ length out.old }
    ensures { Puts out.old at (first ∷ second ∷ []) result out.new }
{
    out[at] = first;
    out[at + 1] = second;
    at + 2
}

pub(crate) fn put_character(
    out: &mut [u64],
    at: usize,
    line: &[u8],
    column: u16,
    character: Character,
) -> usize
    requires { at + 2 ≤ length out.old }
    ensures { Puts out.old at (specs.character_words line.now column character) result out.new }
{
    match character {
        Character::At(place) => put_two(out, at, head_word(column, 4, 0), byte_at(line, place)),
        Character::Unreached => put_two(out, at, head_word(column, 4, 0), 256),
        Character::Absent => at,
    }
}

// The words of a row. A row that isn't present has none.
fn put_row(out: &mut [u64], at: usize, line: &[u8], row: Row) -> usize
    requires { at + 2 ≤ length out.old }
    ensures { Puts out.old at (specs.row_words line.now row) result out.new }
{
    let column = row.0;
    let value = row.1;
    match value {
        Value::Unsigned(n) => put_two(out, at, head_word(column, 0, 0), n),
        Value::Signed(n) => put_two(out, at, head_word(column, 1, 0), signed_word(n)),
        Value::Real(x, places) => put_two(out, at, head_word(column, 2, places), bits_of(x)),
        Value::Factor(x) => put_two(out, at, head_word(column, 2, 0), bits_of(x)),
        Value::Words(text) => put_two(out, at, head_word(column, 3, 0), text_word(text)),
        Value::One(character) => put_character(out, at, line, column, character),
        Value::Flag(flag) => put_two(out, at, head_word(column, 5, 0), flag_word(flag)),
        Value::Nothing => at,
    }
}

pub(crate) fn put_rows(out: &mut [u64], at: usize, line: &[u8], rows: [Row; 16]) -> usize
    requires { at + 32 ≤ length out.old }
    ensures { Puts out.old at (specs.rows_words line.now rows) result out.new }
{
    let mut next = at;
    for row in &rows {
        next = put_row(out, next, line, *row);
    }
    next
}
