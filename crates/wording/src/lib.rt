// A record's fields as numbers of 64 bits in lent words: two for each field that is present. One number in front of them says how many there are,
// and one in front of that which kind it is.
#![tactic(auto)]

ghost use Rattle.std.specs.Prelude.{◌≡◌, cond, ◌≤◌, length};
ghost use Rattle.kind.specs.Kind.{number_of};
ghost use Rattle.kind.specs.declared.Kind.TheVariants as kind;
ghost use Rattle.lexitem.specs.Describe.{fields_of};
ghost use Rattle.lexitem.specs.declared.item.LexItem.TheVariants as item;
ghost use Rattle.wording.specs.Fields as specs;
ghost use Rattle.wording.specs.Put.{Puts};

mod atom_fields;
mod put;
mod word;

use crate::atom_fields::put_atom;
use crate::put::put_rows;
use atom::record::Atom;
use kind::numbered::number_of;
use lexitem::item::{LexItem, rows_of};

// The words of a record's rows, behind the first two.
fn put_by_rows(out: &mut [u64], line: &[u8], item: LexItem) -> usize
    requires { 34 ≤ length out.old }
    ensures { Puts out.old 2 (specs.rows_words line.now (fields_of item)) result out.new }
{
    let rows = rows_of(item);
    let list = rows.list;
    put_rows(out, 2, line, list)
}

// A record's fields at the front of lent words, which stay as they are where there are fewer than 34. They are counted by the place behind them.
fn put_record(out: &mut [u64], line: &[u8], item: LexItem)
    ensures { specs.Fills out.old (specs.field_words line.now item) out.new }
{
    if out.len() < 34 {
        return;
    }
    let number = number_of(item.kind());
    let end = put_by_rows(out, line, item);
    out[0] = number as u64;
    out[1] = ((end - 2) / 2) as u64;
}

// The number of an atom's kind.
fn atom_number(hetero: bool) -> u64
    ensures { result ≡ number_of (cond hetero kind.Hetatm kind.Atom) }
{
    if hetero {
        return 4;
    }
    3
}

// The same of an atom without rows: nearly every line of a file is one.
pub fn put_atom_fields(out: &mut [u64], line: &[u8], atom: Atom)
    ensures { specs.Fills out.old (specs.field_words line.now (item.Atom atom)) out.new }
{
    if out.len() < 34 {
        return;
    }
    let number = atom_number(atom.hetero);
    let end = put_atom(out, 2, line, atom);
    out[0] = number;
    out[1] = ((end - 2) / 2) as u64;
}

// A record's fields, by what is quickest.
pub fn put_fields(out: &mut [u64], line: &[u8], item: LexItem)
    ensures { specs.Fills out.old (specs.field_words line.now item) out.new }
{
    match item {
        LexItem::Atom(atom) => put_atom_fields(out, line, atom),
        _ => put_record(out, line, item),
    }
}
