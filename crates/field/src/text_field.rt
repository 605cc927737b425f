// Text fields, and characters: `parse_char` of lexer.rs. A character is needed apart since trimming could leave nothing of it.
ghost use Rattle.std.specs.Prelude.{◌≡◌, ◌≤◌};
ghost use Rattle.number.specs.Trim.{span_of};
ghost use Rattle.field.specs.Text as specs;

use crate::found::found_or;
use crate::number_field::{ends_before, short};
use line::columns::{Columns, from_column};
use line::fault::{Fault, FaultKind, Faults, Got};
use line::text::{Character, Text};
use number::trim::{kept_length, read_text};

// Whether the whole of a part is kept by trim, which is seen at once where its first and its last byte are over 32. Of other parts nothing is said.
fn is_whole(part: &[u8]) -> bool
    ensures { specs.SaysWhole part.now result }
{
    let n = part.len();
    if n == 0 {
        return false;
    }
    if part[0] <= 32 {
        return false;
    }
    32 < part[n - 1]
}

// Where the trimmed text of a part lies in the line, the part starting there at a column.
#[inline(always)]
fn shifted(start: usize, part: &[u8]) -> Text
    requires { start ≤ 65535 }
    ensures { result ≡ specs.shifted start (span_of part.now) }
{
    if is_whole(part) {
        return Text::new(start, part.len());
    }
    let span = read_text(part);
    if span.length == 0 {
        return Text::new(0, 0);
    }
    Text::new(start + span.place, span.length)
}

// A line that ends before the field's last column has a fault there.
#[inline(always)]
pub fn fine_text(line: &[u8], at: Columns) -> Option<Text>
    ensures { result ≡ specs.fine_text line.now at }
{
    if ends_before(line, at) {
        return None;
    }
    Some(shifted(at.start as usize, at.part(line)))
}

pub fn text(line: &[u8], at: Columns, faults: Faults) -> Got<Text>
    ensures { result ≡ specs.got_text line.now at faults }
{
    found_or(fine_text(line, at), Text::new(0, 0), faults, || short(at))
}

// The text of what the line reaches of the columns.
pub fn text_within(line: &[u8], at: Columns) -> Text
    ensures { result ≡ specs.text_within line.now at }
{
    shifted(at.start as usize, at.reached(line))
}

// The text from a column to the line's end.
pub fn text_from(line: &[u8], start: u16) -> Text
    ensures { result ≡ specs.text_from line.now start }
{
    let from = start as usize;
    shifted(from, from_column(line, from))
}

// The text from a column to the line's end, trimmed at its end alone.
pub fn end_text_from(line: &[u8], start: u16) -> Text
    ensures { result ≡ specs.end_text_from line.now start }
{
    let from = start as usize;
    let n = kept_length(from_column(line, from));
    if n == 0 {
        return Text::new(0, 0);
    }
    Text::new(from, n)
}

// The fault of a character's column that the line doesn't reach.
fn short_character(column: u16) -> Fault
    ensures { result ≡ specs.unreached column }
{
    Fault::new(FaultKind::Short, column, 1)
}

pub fn fine_character(line: &[u8], column: u16) -> Option<Character>
    ensures { result ≡ specs.fine_character line.now column }
{
    let at = column as usize;
    if line.len() <= at {
        return None;
    }
    Some(Character::At(at))
}

pub fn character(line: &[u8], column: u16, faults: Faults) -> Got<Character>
    ensures { result ≡ specs.got_character line.now column faults }
{
    found_or(
        fine_character(line, column),
        Character::Unreached,
        faults,
        || short_character(column),
    )
}

// A character whose blank means that it is absent.
pub fn fine_optional(line: &[u8], column: u16) -> Option<Character>
    ensures { result ≡ specs.fine_optional line.now column }
{
    let at = column as usize;
    if line.len() <= at {
        return None;
    }
    if line[at] == 32 {
        return Some(Character::Absent);
    }
    Some(Character::At(at))
}

pub fn optional(line: &[u8], column: u16, faults: Faults) -> Got<Character>
    ensures { result ≡ specs.got_optional line.now column faults }
{
    found_or(
        fine_optional(line, column),
        Character::Absent,
        faults,
        || short_character(column),
    )
}
