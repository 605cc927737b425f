// Which line it is, and whose.
ghost use Rattle.std.specs.Prelude.{◌≡◌};
ghost use Rattle.kind.specs.Name.{name_of};
ghost use Rattle.page.specs.Page.{page, put};
ghost use Rattle.account.specs.Account as specs;

use crate::text::{put_marked, put_numbered};
use kind::Kind;
use kind::name::name_of;
use kind::numbered::number_of;
use line::columns::Columns;
use number::trim::trim;
use page::put_bytes;

// A text behind a blank, if there is one.
fn put_word(out: &mut [u8], at: usize, text: &[u8]) -> usize
    ensures { page out.new result ≡ put (page out.old at) (specs.word text.now) }
{
    if text.is_empty() {
        return at;
    }
    let next = put_bytes(out, at, b" ");
    put_marked(out, next, text)
}

// What the line reaches of some columns.
fn put_part(out: &mut [u8], at: usize, line: &[u8], start: u16, end: u16) -> usize
    ensures { page out.new result ≡ put (page out.old at) (specs.word_at line.now start end) }
{
    let columns = Columns::new(start, end);
    put_word(out, at, trim(columns.reached(line)))
}

// Serial number, name, residue, chain and residue number of an atom.
fn put_atom(out: &mut [u8], at: usize, line: &[u8]) -> usize
    ensures { page out.new result ≡ put (page out.old at) (specs.atom_words line.now) }
{
    let name = put_part(out, at, line, 6, 11);
    let residue = put_part(out, name, line, 12, 16);
    let chain = put_part(out, residue, line, 17, 20);
    let number = put_part(out, chain, line, 21, 22);
    put_part(out, number, line, 22, 27)
}

// The same where the kind has them.
fn put_words(out: &mut [u8], at: usize, kind: Kind, line: &[u8]) -> usize
    ensures { page out.new result ≡ put (page out.old at) (specs.words kind line.now) }
{
    match number_of(kind) {
        3..=5 => put_atom(out, at, line),
        _ => at,
    }
}

// The name of a kind.
fn put_kind(out: &mut [u8], at: usize, kind: Kind) -> usize
    ensures { page out.new result ≡ put (page out.old at) (name_of kind) }
{
    put_bytes(out, at, name_of(kind))
}

// Which line it is, of which kind and whose.
pub(crate) fn put_head(out: &mut [u8], at: usize, number: usize, kind: Kind, line: &[u8]) -> usize
    ensures { page out.new result ≡ put (page out.old at) (specs.head number kind line.now) }
{
    let name = put_numbered(out, at, b"line ", number, b", ");
    let words = put_kind(out, name, kind);
    put_words(out, words, kind, line)
}
