// A line mended for C hosts. Of the lent words the first is the mended length and the second the number of changes; the changes follow.
#![tactic(auto)]

ghost use Rattle.std.specs.Prelude.{◌≡◌, ◌≤◌, length, take, drop};
ghost use Rattle.mend.specs.Mending.{refusal_of, Mends};
ghost use Rattle.remedy.specs.Mend as specs;

use lexitem::answer::Refusal;
use mend::{Mended, mend_line, refusal_of};
use packing::packed;

// The words that always have room: two, and one for each of 512 changes.
const ENOUGH: usize = 514;

// With too few words, the refusal of the line, or of the words where it has none.
fn lacking(line: &[u8], room: usize) -> Refusal
    ensures { result ≡ specs.or_few_words (refusal_of line.now room) }
{
    refusal_of(line, room).unwrap_or(Refusal::new(8, 0, 514))
}

// The changes stand behind two words, which stay.
fn mend_behind(line: &[u8], out: &mut [u8], changes: &mut [u64]) -> Result<Mended, Refusal>
    requires { 2 ≤ length changes.old }
    ensures { Mends line.now out.old (drop 2 changes.old) result out.new (drop 2 changes.new) × (take 2 changes.new ≡ take 2 changes.old) }
{
    mend_line(line, out, &mut changes[2..])
}

// Answers 0, or the refusal as one number.
pub fn mend_into(line: &[u8], out: &mut [u8], changes: &mut [u64]) -> u64
    ensures { specs.MendsInto line.now out.old changes.old result out.new changes.new }
{
    if changes.len() < ENOUGH {
        return packed(lacking(line, out.len()));
    }
    match mend_behind(line, out, changes) {
        Err(refusal) => packed(refusal),
        Ok(mended) => {
            changes[0] = mended.size as u64;
            changes[1] = mended.changes as u64;
            0
        }
    }
}
