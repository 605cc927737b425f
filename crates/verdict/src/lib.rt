// What `pdbmaster` prints for a file: a row for each of MASTER's numbers and one in words, or the rows of a refusal.
#![tactic(auto)]

ghost use Rattle.std.specs.Prelude.{◌≡◌, length};
ghost use Rattle.page.specs.Page.{page, put};
ghost use Rattle.verdict.specs.Verdict as specs;

use audit::Compared;
use layout::put_three;
use lexitem::answer::Refusal;
use master::record::Master;
use page::{put_bytes, put_unsigned};
use tally::Tally;
use tally::compare::{counts_of, differing, said_by};

fn put_same(out: &mut [u8], at: usize, counted: u64, said: u64) -> usize
    ensures { page out.new result ≡ put (page out.old at) (specs.same_or_not counted said) }
{
    if counted == said {
        return put_bytes(out, at, b"same\n");
    }
    put_bytes(out, at, b"differs\n")
}

// The row of a number.
fn put_row(out: &mut [u8], at: usize, name: &[u8], counted: u64, said: u64) -> usize
    ensures { page out.new result ≡ put (page out.old at) (specs.row name.now counted said) }
{
    let colon = put_bytes(out, at, name);
    let first = put_bytes(out, colon, b": ");
    let word = put_unsigned(out, first, counted);
    let second = put_bytes(out, word, b" counted, ");
    let other = put_unsigned(out, second, said);
    let last = put_bytes(out, other, b" said, ");
    put_same(out, last, counted, said)
}

// The first six rows.
fn put_upper(out: &mut [u8], at: usize, counted: Tally, said: Master) -> usize
    ensures { page out.new result ≡ put (page out.old at) (specs.upper_rows counted said) }
{
    let empty = put_row(out, at, b"REMARK", counted.remark, said.remark);
    let het = put_row(out, empty, b"second number", 0, said.empty);
    let helix = put_row(out, het, b"HET", counted.het, said.het);
    let sheet = put_row(out, helix, b"HELIX", counted.helix, said.helix);
    let turn = put_row(out, sheet, b"SHEET", counted.sheet, said.sheet);
    put_row(out, turn, b"TURN", counted.turn, said.turn)
}

// The last six rows.
fn put_lower(out: &mut [u8], at: usize, counted: Tally, said: Master) -> usize
    ensures { page out.new result ≡ put (page out.old at) (specs.lower_rows counted said) }
{
    let xform = put_row(out, at, b"SITE", counted.site, said.site);
    let coord = put_row(out, xform, b"ORIGX+SCALE+MTRIX", counted.xform, said.xform);
    let ter = put_row(out, coord, b"ATOM+HETATM", counted.coord, said.coord);
    let connect = put_row(out, ter, b"TER", counted.ter, said.ter);
    let seq = put_row(out, connect, b"CONECT", counted.connect, said.connect);
    put_row(out, seq, b"SEQRES", counted.seq, said.seq)
}

// Whether one of some counts is below what is said in its place.
fn fewer(counted: &[u64], said: &[u64]) -> bool
    requires { length counted.now ≡ length said.now }
    ensures { result ≡ specs.fewer counted.now said.now }
{
    for i in 0..said.len() {
        if counted[i] < said[i] {
            return true;
        }
    }
    false
}

// Whether lines are missing. No line counts for the second number, so that none is missing there.
fn lacks(counted: Tally, said: Master) -> bool
    ensures { result ≡ specs.lacks counted said }
{
    let counts = counts_of(counted);
    let numbers = said_by(said);
    if fewer(&counts[..1], &numbers[..1]) {
        return true;
    }
    fewer(&counts[2..], &numbers[2..])
}

// The last row, in words.
fn put_last(out: &mut [u8], at: usize, counted: Tally, said: Master) -> usize
    ensures { page out.new result ≡ put (page out.old at) (specs.last_row counted said) }
{
    if lacks(counted, said) {
        return put_bytes(out, at, b"lines are missing\n");
    }
    if differing(counted, said) == 0 {
        return put_bytes(out, at, b"no lines are missing\n");
    }
    put_bytes(
        out,
        at,
        b"no lines are missing, but MASTER says other numbers\n",
    )
}

// What there is to say of a file that could be checked.
fn put_compared(out: &mut [u8], at: usize, compared: Compared) -> usize
    ensures { page out.new result ≡ put (page out.old at) (specs.compared_rows compared) }
{
    let counted = compared.counted;
    let said = compared.said;
    let lower = put_upper(out, at, counted, said);
    let last = put_lower(out, lower, counted, said);
    put_last(out, last, counted, said)
}

fn put_why(out: &mut [u8], at: usize, number: usize) -> usize
    ensures { page out.new result ≡ put (page out.old at) (specs.why number) }
{
    if number == 10 {
        return put_bytes(out, at, b"there is no MASTER line\n");
    }
    if number == 11 {
        return put_bytes(out, at, b"there is more than one MASTER line\n");
    }
    put_bytes(out, at, b"the MASTER line can't be read\n")
}

// The rows of a refusal: its three numbers, and what it is in words.
fn put_refused(out: &mut [u8], at: usize, refusal: Refusal) -> usize
    ensures { page out.new result ≡ put (page out.old at) (specs.refused_rows refusal) }
{
    let why = put_three(
        out,
        at,
        b"refusal=",
        refusal.number as u64,
        refusal.place as u64,
        refusal.length as u64,
    );
    put_why(out, why, refusal.number)
}

// What is printed for a file, by what the checker answers of it, at the front of lent bytes; 4,096 hold it.
pub fn put_verdict(checked: Result<Compared, Refusal>, out: &mut [u8]) -> usize
    ensures { page out.new result ≡ put (page out.old 0) (specs.verdict_of checked) }
{
    match checked {
        Ok(compared) => put_compared(out, 0, compared),
        Err(refusal) => put_refused(out, 0, refusal),
    }
}
