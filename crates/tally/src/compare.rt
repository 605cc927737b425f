// The counts of a tally held against what a MASTER says: each is twelve numbers, in the order of MASTER's.
ghost use Rattle.std.specs.Prelude.{◌≡◌, ◌<◌, length};
ghost use Rattle.tally.specs.Compare as specs;

use crate::Tally;
use master::record::Master;

// What was counted. No line counts for the second number.
pub fn counts_of(tally: Tally) -> [u64; 12]
    ensures { result ≡ specs.counts_of tally }
{
    [
        tally.remark,
        0,
        tally.het,
        tally.helix,
        tally.sheet,
        tally.turn,
        tally.site,
        tally.xform,
        tally.coord,
        tally.ter,
        tally.connect,
        tally.seq,
    ]
}

// What MASTER says.
pub fn said_by(master: Master) -> [u64; 12]
    ensures { result ≡ specs.said_by master }
{
    [
        master.remark,
        master.empty,
        master.het,
        master.helix,
        master.sheet,
        master.turn,
        master.site,
        master.xform,
        master.coord,
        master.ter,
        master.connect,
        master.seq,
    ]
}

// A bit for each place of two lists, set where they differ; the last places go first.
fn bits_of(counted: &[u64], said: &[u64]) -> u64
    requires { (length counted.now ≡ length said.now) × (length said.now < 64) }
    ensures { result ≡ specs.differing counted.now said.now }
{
    let mut bits = 0;
    for i in (0..said.len()).rev() {
        bits = u64::from(counted[i] != said[i]) + 2 * bits;
    }
    bits
}

// Bit n is set where the n-th number that was counted isn't the one that MASTER says.
pub fn differing(tally: Tally, master: Master) -> u64
    ensures { result ≡ specs.differing (specs.counts_of tally) (specs.said_by master) }
{
    let counted = counts_of(tally);
    let said = said_by(master);
    bits_of(&counted, &said)
}
