// What is asked of a line: `kind_line` its kind, `lex_line` its record and its faults, `read_line_as` the same as one of a kind. A line's refusals
// come in document 01's order of testing.
#![tactic(auto)]

ghost use Rattle.std.specs.Prelude.{◌≡◌, ◌≤◌, ltb, length};
ghost use Rattle.lexer.specs.Refusals as specs;
ghost use Rattle.lexer.specs.Lexed.{lexed, lexed_as, kind_asked};
ghost use Rattle.lexer.specs.Steps as steps;
ghost use Rattle.lexitem.specs.Read.{got_item};

mod bound;

use crate::bound::test_own;
use atom::read::lex_atom;
use atom::record::Atom;
use kind::numbered::number_of;
use kind::{Kind, kind_of};
use lexitem::answer::{Answer, Refusal};
use lexitem::bound::bound_of;
use lexitem::fault::LineFaults;
use lexitem::item::LexItem;
use lexitem::read::lex_as;
use line::fault::Got;
use line::options::Options;

// The highest byte of a line, 0 if it has none. The loop has no way out, so that many bytes go at once.
fn highest(line: &[u8]) -> u8
    ensures { result ≡ steps.highest 0 line.now }
{
    let mut most = 0;
    for b in line {
        if most < *b {
            most = *b;
        }
    }
    most
}

// How many bytes stand before the first of 128 or more, byte by byte.
fn first_high(line: &[u8]) -> usize
    ensures { result ≡ specs.plain line.now }
{
    line.iter().position(|b| 128 <= *b).unwrap_or(line.len())
}

// Whether a line of 64 to 128 bytes has one of 128 or more: its first 64 and its last 64 are all of it. Here the loop's turns are known too, and
// nothing is left over.
fn has_high(line: &[u8]) -> bool
    requires { (64 ≤ length line.now) × (length line.now ≤ 128) }
    ensures { result ≡ ltb (specs.plain line.now) (length line.now) }
{
    let behind = line.len() - 64;
    let mut found = false;
    for i in 0..64 {
        if 127 < line[i] {
            found = true;
        }
        if 127 < line[behind + i] {
            found = true;
        }
    }
    found
}

// How many bytes of such a line stand before the first of 128 or more.
fn middle_plain(line: &[u8]) -> usize
    requires { (64 ≤ length line.now) × (length line.now ≤ 128) }
    ensures { result ≡ specs.plain line.now }
{
    if has_high(line) {
        return first_high(line);
    }
    line.len()
}

// How many bytes stand before the first of 128 or more. Hardly a line has one, so it is looked for only where one is.
fn plain_length(line: &[u8]) -> usize
    ensures { result ≡ specs.plain line.now }
{
    if 64 <= line.len() {
        if line.len() <= 128 {
            return middle_plain(line);
        }
    }
    if highest(line) < 128 {
        return line.len();
    }
    first_high(line)
}

// By how many bytes a line of so many is over 1,024, as far as it is counted.
pub fn excess(size: usize) -> usize
    ensures { result ≡ specs.excess size }
{
    if size <= 1024 {
        return 0;
    }
    if 4294968319 < size {
        return 4294967295;
    }
    size - 1024
}

// Refusals 2 and 3, which come of the line's bytes alone.
fn test_line(line: &[u8]) -> Result<(), Refusal>
    ensures { result ≡ steps.passed (specs.line_tests line.now) }
{
    if 1024 < line.len() {
        return Err(Refusal::new(2, 1024, excess(line.len())));
    }
    let plain = plain_length(line);
    if plain < line.len() {
        return Err(Refusal::new(3, plain, 1));
    }
    Ok(())
}

// Refusal 1 and then these, for callers that ask for a record.
fn test_entry(line: &[u8], remarks: &[u8]) -> Result<(), Refusal>
    ensures { result ≡ steps.passed (steps.entry_tests line.now remarks.now) }
{
    if remarks.len() != 1000 {
        return Err(Refusal::new(1, 0, 0));
    }
    test_line(line)
}

// A refusal: no record and an empty list of faults.
fn refuse(line: usize, refusal: Refusal) -> Answer
    ensures { result ≡ steps.refused_with line refusal }
{
    Answer {
        line,
        outcome: Err(refusal),
        faults: LineFaults::none(),
    }
}

// A record with its faults, each of which gets the line's number and kind here.
fn accept(line: usize, kind: Kind, got: Got<LexItem>) -> Answer
    ensures { result ≡ steps.answer_of line kind got }
{
    Answer {
        line,
        outcome: Ok(got.value),
        faults: LineFaults::of(line, kind, got.faults),
    }
}

// An atom, with its faults, as a record among the others.
#[inline(always)]
fn atom_item(got: Got<Atom>) -> Got<LexItem>
    ensures { result ≡ record { value = LexItem.Atom got.value; faults = got.faults } }
{
    Got {
        value: LexItem::Atom(got.value),
        faults: got.faults,
    }
}

// Nearly every line of a file is an atom. Apart from the readers of all other kinds, which are large, reading one can stand where it is asked for.
fn lex_kind(number: usize, kind: Kind, line: &[u8], options: Options, remarks: &[u8]) -> Answer
    ensures { result ≡ steps.answer_of number kind (got_item kind (record { line = line.entry.now; options = options; remarks = remarks.now })) }
{
    match kind {
        Kind::Atom => accept(
            number,
            kind,
            atom_item(lex_atom(line, false, options.exponents)),
        ),
        Kind::Hetatm => accept(
            number,
            kind,
            atom_item(lex_atom(line, true, options.exponents)),
        ),
        _ => accept(number, kind, lex_as(kind, line, options, remarks)),
    }
}

// Reads a line of a kind, after the refusals that the kind has of its own.
fn read_as(line: &[u8], number: usize, kind: Kind, options: Options, remarks: &[u8]) -> Answer
    ensures { result ≡ steps.read_as number kind (record { line = line.entry.now; options = options; remarks = remarks.now }) }
{
    if let Err(refusal) = test_own(bound_of(kind), line, options.loose) {
        return refuse(number, refusal);
    }
    lex_kind(number, kind, line, options, remarks)
}

// The kind of a line of any bytes, without reading it.
pub fn kind_line(line: &[u8], options: Options) -> Result<Kind, Refusal>
    ensures { result ≡ kind_asked line.now options }
{
    test_line(line)?;
    let mode = options.mode;
    Ok(kind_of(options.atoms, mode, line))
}

// Reads a line of any bytes as one of a kind, which has to be the one that `kind_line` gives; any other is refused. The rest is as for `lex_line`.
pub fn read_line_as(
    line: &[u8],
    number: usize,
    options: Options,
    remarks: &[u8],
    kind: Kind,
) -> Answer
    ensures { result ≡ lexed_as kind (record { line = line.entry.now; number = number; options = options; remarks = remarks.now }) }
{
    if let Err(refusal) = test_entry(line, remarks) {
        return refuse(number, refusal);
    }
    let mode = options.mode;
    let own = kind_of(options.atoms, mode, line);
    if number_of(kind) != number_of(own) {
        return refuse(number, Refusal::new(15, 0, 0));
    }
    read_as(line, number, own, options, remarks)
}

// Lexes a line of any bytes: the kind is asked for, and the line is read as one of it, with one scan of its bytes. The number is handed through.
// The remark table has 1,000 bytes, byte n nonzero when remark number n is valid.
pub fn lex_line(line: &[u8], number: usize, options: Options, remarks: &[u8]) -> Answer
    ensures { result ≡ lexed (record { line = line.entry.now; number = number; options = options; remarks = remarks.now }) }
{
    if let Err(refusal) = test_entry(line, remarks) {
        return refuse(number, refusal);
    }
    let mode = options.mode;
    read_as(
        line,
        number,
        kind_of(options.atoms, mode, line),
        options,
        remarks,
    )
}
