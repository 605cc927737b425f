// A running tally of a file's lines by name: what MASTER says of them, counted. A line's name is looked up in `names`, and in `compare` the counts
// are held against a MASTER.
#![tactic(auto)]

ghost use Rattle.std.specs.Prelude.{◌≡◌};
ghost use Rattle.tally.specs.Tally as specs;

pub mod compare;
pub mod names;

use crate::names::number_of;

// How many lines came of each sort that MASTER counts, by the names of its numbers. A count stops at 2^64-1, and no file has so many lines.
#[derive(Clone, Copy)]
pub struct Tally {
    pub remark: u64,
    pub het: u64,
    pub helix: u64,
    pub sheet: u64,
    pub turn: u64,
    pub site: u64,
    pub xform: u64,
    pub coord: u64,
    pub ter: u64,
    pub connect: u64,
    pub seq: u64,
}

impl Tally {
    // No line came.
    pub const NONE: Tally = Tally {
        remark: 0,
        het: 0,
        helix: 0,
        sheet: 0,
        turn: 0,
        site: 0,
        xform: 0,
        coord: 0,
        ter: 0,
        connect: 0,
        seq: 0,
    };
}

// A count, with one more if the line's number is its own.
fn more(count: u64, own: usize, number: Option<usize>) -> u64
    ensures { result ≡ specs.more own number count }
{
    match number {
        Some(n) if n == own => count.saturating_add(1),
        _ => count,
    }
}

// The tally with one line more, by the number that counts it, if one does.
fn with_number(tally: Tally, number: Option<usize>) -> Tally
    ensures { result ≡ specs.with_number number tally }
{
    Tally {
        remark: more(tally.remark, 0, number),
        het: more(tally.het, 2, number),
        helix: more(tally.helix, 3, number),
        sheet: more(tally.sheet, 4, number),
        turn: more(tally.turn, 5, number),
        site: more(tally.site, 6, number),
        xform: more(tally.xform, 7, number),
        coord: more(tally.coord, 8, number),
        ter: more(tally.ter, 9, number),
        connect: more(tally.connect, 10, number),
        seq: more(tally.seq, 11, number),
    }
}

// The tally with one line more, by value.
pub fn counted(tally: Tally, line: &[u8]) -> Tally
    ensures { result ≡ specs.counted tally line.now }
{
    with_number(tally, number_of(line))
}

// The running tally: lent, and updated line by line.
pub fn count_line(tally: &mut Tally, line: &[u8])
    ensures { tally.new ≡ specs.counted tally.old line.now }
{
    *tally = counted(*tally, line);
}
