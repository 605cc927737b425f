// The summary that people read, by the words of the ledger.
ghost use Rattle.std.specs.Prelude.{◌≡◌, ◌<◌};
ghost use Rattle.page.specs.Page.{page, put};
ghost use Rattle.ledger.specs.Summary as specs;

use names::put_group;
use page::{put_bytes, put_unsigned};

// So many, in words that go by whether that is none, one or more.
fn put_counted<'a>(
    out: &mut [u8],
    at: usize,
    n: u64,
    none: &'a [u8],
    single: &'a [u8],
    more: &'a [u8],
) -> usize
    ensures { page out.new result ≡ put (page out.old at) (specs.counted n none.now single.now more.now) }
{
    if n == 0 {
        return put_bytes(out, at, none);
    }
    if n == 1 {
        return put_bytes(out, at, single);
    }
    let word = put_unsigned(out, at, n);
    put_bytes(out, word, more)
}

// That some fields weren't read, or some lines.
fn put_unread(out: &mut [u8], at: usize, faulty: u64, refused: u64) -> usize
    ensures { page out.new result ≡ put (page out.old at) (specs.unread faulty refused) }
{
    let blank = put_counted(
        out,
        at,
        faulty,
        b"no line has fields that were not read.",
        b"1 has fields that were not read.",
        b" have fields that were not read.",
    );
    let next = put_bytes(out, blank, b" ");
    let last = put_counted(
        out,
        next,
        refused,
        b"No line was refused.",
        b"1 line was refused.",
        b" lines were refused.",
    );
    put_bytes(out, last, b" Columns are counted from 1.")
}

// That all was read, if there was anything.
fn put_whole(out: &mut [u8], at: usize, records: u64) -> usize
    ensures { page out.new result ≡ put (page out.old at) (specs.whole records) }
{
    if records == 0 {
        return put_bytes(
            out,
            at,
            b"none is a record of a PDB file, so nothing was read.",
        );
    }
    put_bytes(out, at, b"every number that was looked for was read.")
}

fn put_verdict(out: &mut [u8], at: usize, records: u64, faulty: u64, refused: u64) -> usize
    ensures { page out.new result ≡ put (page out.old at) (specs.verdict records faulty refused) }
{
    if faulty != 0 {
        return put_unread(out, at, faulty, refused);
    }
    if refused != 0 {
        return put_unread(out, at, faulty, refused);
    }
    put_whole(out, at, records)
}

// That the file most likely has no end.
fn put_cut_hint(out: &mut [u8], at: usize, cut: u64, atoms: u64, ends: u64) -> usize
    ensures { page out.new result ≡ put (page out.old at) (specs.cut_hint cut atoms ends) }
{
    if cut != 0 {
        return put_bytes(
            out,
            at,
            b" The last line is cut: most likely the file was not saved whole.",
        );
    }
    if atoms == 0 {
        return at;
    }
    if ends != 0 {
        return at;
    }
    put_bytes(
        out,
        at,
        b" There is no END line: lines may be missing at the end.",
    )
}

// That its columns most likely are shifted.
fn put_off_hint(out: &mut [u8], at: usize, atoms: u64, off: u64) -> usize
    ensures { page out.new result ≡ put (page out.old at) (specs.off_hint atoms off) }
{
    if atoms == 0 {
        return at;
    }
    if atoms != off {
        return at;
    }
    put_bytes(
        out,
        at,
        b" In every ATOM and HETATM line y or z was not read: most likely the columns are shifted.",
    )
}

// That its lines most likely end with CR.
fn put_cr_hint(out: &mut [u8], at: usize, cr: u64) -> usize
    ensures { page out.new result ≡ put (page out.old at) (specs.cr_hint cr) }
{
    if cr == 0 {
        return at;
    }
    put_bytes(
        out,
        at,
        b" A line has a CR inside it: most likely the lines end with CR alone.",
    )
}

fn put_hints(out: &mut [u8], at: usize, ledger: &[u64; 69]) -> usize
    ensures { page out.new result ≡ put (page out.old at) (specs.hints ledger.now) }
{
    let off = put_cut_hint(out, at, ledger[7], ledger[4], ledger[6]);
    let cr = put_off_hint(out, off, ledger[4], ledger[5]);
    put_cr_hint(out, cr, ledger[8])
}

fn put_first_line(out: &mut [u8], at: usize, ledger: &[u64; 69]) -> usize
    ensures { page out.new result ≡ put (page out.old at) (specs.first_line ledger.now) }
{
    let verdict = put_counted(out, at, ledger[0], b"", b"1 line; ", b" lines; ");
    let hints = put_verdict(out, verdict, ledger[1], ledger[2], ledger[3]);
    let end = put_hints(out, hints, ledger);
    put_bytes(out, end, b"\n")
}

// How many fields, and in which lines.
fn put_places(out: &mut [u8], at: usize, n: u64, first: u64, last: u64) -> usize
    ensures { page out.new result ≡ put (page out.old at) (specs.places n first last) }
{
    if n == 1 {
        let one = put_bytes(out, at, b": 1, in line ");
        return put_unsigned(out, one, first);
    }
    let colon = put_bytes(out, at, b": ");
    let count = put_unsigned(out, colon, n);
    let from = put_bytes(out, count, b", first in line ");
    let number = put_unsigned(out, from, first);
    let to = put_bytes(out, number, b", last in line ");
    put_unsigned(out, to, last)
}

// The row of a group that has some.
fn put_group_row(out: &mut [u8], at: usize, ledger: &[u64; 69], group: usize) -> usize
    requires { group < 20 }
    ensures { page out.new result ≡ put (page out.old at) (specs.group_row ledger.now group) }
{
    let n = ledger[9 + 3 * group];
    if n == 0 {
        return at;
    }
    let first = ledger[10 + 3 * group];
    let last = ledger[11 + 3 * group];
    let name = put_bytes(out, at, b"    ");
    let colon = put_group(out, name, group);
    let end = put_places(out, colon, n, first, last);
    put_bytes(out, end, b"\n")
}

fn put_group_rows(out: &mut [u8], at: usize, ledger: &[u64; 69]) -> usize
    ensures { page out.new result ≡ put (page out.old at) (specs.group_rows ledger.now 0 20) }
{
    let mut next = at;
    for g in 0..20 {
        next = put_group_row(out, next, ledger, g);
    }
    next
}

// The summary of what was entered; 4,096 bytes hold it.
pub fn put_summary(out: &mut [u8], at: usize, ledger: &[u64; 69]) -> usize
    ensures { page out.new result ≡ put (page out.old at) (specs.summary ledger.now) }
{
    if ledger[0] == 0 {
        return put_bytes(out, at, b"The file is empty.\n");
    }
    let groups = put_first_line(out, at, ledger);
    put_group_rows(out, groups, ledger)
}
