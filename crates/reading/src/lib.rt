// A line read for C hosts: its fields and its faults, as words. Nearly every line of a file is an atom, and one goes from its reader to its words
// without an answer between them, which would be copied.
#![tactic(auto)]

ghost use Rattle.std.specs.Prelude.{◌≡◌};
ghost use Rattle.packing.specs.Options.{input_of, options_of};
ghost use Rattle.reading.specs.Read as specs;

mod faults;

use crate::faults::put_faults;
use answers::kinds::kind_word;
use atom::read::lex_atom;
use kind::Kind;
use lexer::{lex_line, read_line_as};
use lexitem::answer::Answer;
use lexitem::fault::LineFaults;
use packing::{options_of, packed};
use wording::{put_atom_fields, put_fields};

// A kind by its number. The row that stands for any other number is no kind of a line.
fn kind_numbered(number: u32) -> Kind
    ensures { result ≡ specs.kind_numbered number }
{
    let kinds = [
        Kind::Empty,
        Kind::Header,
        Kind::Remark,
        Kind::Atom,
        Kind::Hetatm,
        Kind::Anisou,
        Kind::Cryst1,
        Kind::Scale(0),
        Kind::Scale(1),
        Kind::Scale(2),
        Kind::Origx(0),
        Kind::Origx(1),
        Kind::Origx(2),
        Kind::Mtrix(0),
        Kind::Mtrix(1),
        Kind::Mtrix(2),
        Kind::Model,
        Kind::Master,
        Kind::Dbref,
        Kind::Dbref1,
        Kind::Dbref2,
        Kind::Seqres,
        Kind::Seqadv,
        Kind::Modres,
        Kind::Ssbond,
        Kind::Endmdl,
        Kind::Ter,
        Kind::End,
    ];
    if number < 28 {
        return kinds[number as usize];
    }
    Kind::Scale(3)
}

fn answer_of(line: &[u8], number: usize, options: u32, remarks: &[u8], kind: u32) -> Answer
    ensures { result ≡ specs.answered kind (input_of line.now number options remarks.now) }
{
    if kind == 4294967295 {
        return lex_line(line, number, options_of(options), remarks);
    }
    read_line_as(
        line,
        number,
        options_of(options),
        remarks,
        kind_numbered(kind),
    )
}

// 8 with the words needed, where one of the lent arrays has too few; else 0.
fn room_refusal(room: usize, other: usize) -> u64
    ensures { result ≡ specs.room_word room other }
{
    if room < 34 {
        return 2251799813685282;
    }
    if other < 31 {
        return 2251799813685279;
    }
    0
}

// Answers 0, or the refusal as one number.
fn read_any(
    line: &[u8],
    number: usize,
    options: u32,
    remarks: &[u8],
    kind: u32,
    fields: &mut [u64],
    faults: &mut [u64],
) -> u64
    ensures { specs.Reads line.now (specs.answered kind (input_of line.now number options remarks.now)) fields.old faults.old result fields.new faults.new }
{
    let answer = answer_of(line, number, options, remarks, kind);
    match answer.outcome {
        Err(refusal) => packed(refusal),
        Ok(item) => {
            let few = room_refusal(fields.len(), faults.len());
            if few != 0 {
                return few;
            }
            put_fields(fields, line, item);
            if answer.faults.count == 0 {
                faults[0] = 0;
                return 0;
            }
            let list = answer.faults;
            put_faults(faults, list);
            0
        }
    }
}

fn atom_kind(hetero: bool) -> Kind
    ensures { result ≡ specs.atom_kind hetero }
{
    if hetero {
        return Kind::Hetatm;
    }
    Kind::Atom
}

// The same of a line that is known to be an atom. The table is there for the condition alone.
fn read_atom(
    line: &[u8],
    number: usize,
    options: u32,
    remarks: &[u8],
    hetero: bool,
    fields: &mut [u64],
    faults: &mut [u64],
) -> u64
    requires { specs.answered 4294967295 (input_of line.now number options remarks.now) ≡ specs.atom_answer hetero (options_of options).exponents number line.now }
    ensures { specs.Reads line.now (specs.answered 4294967295 (input_of line.now number options remarks.now)) fields.old faults.old result fields.new faults.new }
{
    let few = room_refusal(fields.len(), faults.len());
    if few != 0 {
        return few;
    }
    let on = options_of(options);
    let got = lex_atom(line, hetero, on.exponents);
    let atom = got.value;
    put_atom_fields(fields, line, atom);
    if got.faults.count == 0 {
        faults[0] = 0;
        return 0;
    }
    let list = got.faults;
    put_faults(faults, LineFaults::of(number, atom_kind(hetero), list));
    0
}

// Answers 0, or the refusal as one number.
pub fn read_words(
    line: &[u8],
    number: usize,
    options: u32,
    remarks: &[u8],
    kind: u32,
    fields: &mut [u64],
    faults: &mut [u64],
) -> u64
    ensures { specs.Reads line.now (specs.answered kind (input_of line.now number options remarks.now)) fields.old faults.old result fields.new faults.new }
{
    if kind != 4294967295 {
        return read_any(line, number, options, remarks, kind, fields, faults);
    }
    if remarks.len() != 1000 {
        return read_any(line, number, options, remarks, kind, fields, faults);
    }
    let own = kind_word(line, options);
    if own == 3 {
        return read_atom(line, number, options, remarks, false, fields, faults);
    }
    if own == 4 {
        return read_atom(line, number, options, remarks, true, fields, faults);
    }
    read_any(line, number, options, remarks, kind, fields, faults)
}
