// Input in parts, as it comes: the reports of the lines that a part finishes, and what is held over of an unfinished one. Whoever feeds the parts
// in order and then finishes has had the report of each line of the whole input once, whatever the cuts.
#![tactic(auto)]

ghost use Rattle.std.specs.Prelude.{◌≤◌, length, drop};
ghost use Rattle.listing.specs.Listing.{longest};
ghost use Rattle.parts.specs.Feed as specs;

use crate::put::put_held;
use carry::behind_last;
use carry::held::Held;
use carry::keep::absorb;
use report::fill::{LONGEST, put_reports};
use walker::following;

mod put;

// What is held, the offset of the first byte of the part that wasn't taken, and how many bytes were put.
#[derive(Clone, Copy)]
pub struct Fed {
    pub held: Held,
    pub at: usize,
    pub n: usize,
}

// The reports of lines that stand whole in a part, from an offset up to the one behind its last LF.
fn feed_whole(number: usize, part: &[u8], at: usize, behind: usize, out: &mut [u8]) -> Fed
    requires { specs.Behind part.now at behind }
    ensures { specs.FeedsWhole part.now at number out.old out.new result }
{
    let filled = put_reports(&part[at..behind], 0, number, out);
    Fed {
        held: Held::none(filled.number),
        at: at + filled.at,
        n: filled.n,
    }
}

// Keeps bytes up to the first LF, and puts the report of the line that it ends; or keeps them all.
fn feed_held(held: Held, kept: &mut [u8; 1024], part: &[u8], at: usize, out: &mut [u8]) -> Fed
    requires { longest ≤ length out.old }
    ensures { specs.Feeds (specs.closed (record { held = held; kept = kept.old }) (drop at part.now)) at out.old out.new kept.new result }
{
    let absorbed = absorb(held, kept, part, at);
    let h = absorbed.held;
    let lf = absorbed.at;
    if part.len() <= lf {
        return Fed {
            held: h,
            at: lf,
            n: 0,
        };
    }
    let n = put_held(h.number, kept, h.ended_size(), out);
    Fed {
        held: Held::none(following(h.number)),
        at: lf + 1,
        n,
    }
}

// Takes bytes of a part from an offset on, and puts the reports of lines that they finish, as many whole ones at once as there is room for.
// Whoever lends 4,096 bytes or more goes on from where it stopped until the part ends; with fewer nothing is taken.
pub fn feed(held: Held, kept: &mut [u8; 1024], part: &[u8], at: usize, out: &mut [u8]) -> Fed
    ensures { specs.Feeds (specs.turn (length out.old) (record { held = held; kept = kept.old }) (drop at part.now)) at out.old out.new kept.new result }
{
    if out.len() < LONGEST {
        return Fed { held, at, n: 0 };
    }
    if held.total != 0 {
        return feed_held(held, kept, part, at, out);
    }
    let behind = behind_last(part, at);
    if behind <= at {
        return feed_held(held, kept, part, at, out);
    }
    feed_whole(held.number, part, at, behind, out)
}

// The report of the line that the end of the input ends, if a byte of it came. It wants 4,096 bytes; with fewer nothing is put.
pub fn finish(held: Held, kept: &[u8; 1024], out: &mut [u8]) -> usize
    ensures { specs.Puts (specs.ending (length out.old) (record { held = held; kept = kept.now })) out.old out.new result }
{
    if out.len() < LONGEST {
        return 0;
    }
    if held.total == 0 {
        return 0;
    }
    put_held(held.number, kept, held.total, out)
}
