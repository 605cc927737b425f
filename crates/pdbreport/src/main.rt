// Says for standard input whether it was read, and where not: the account of each line that wasn't read whole, and at the end a summary; or says on
// standard error why it can't. It reads its input in parts, as they come, and keeps no more of it than a line.
#![tactic(auto)]

ghost use Rattle.std.specs.Prelude.{◌≡◌};
ghost use Rattle.pdbreport.specs.Fed as specs;

mod step;
mod tell;

use crate::step::take_part;
use crate::tell::{hand_over, tell_held};
use carry::held::Held;
use ledger::summary::put_summary;
use std::io::Result;
use stream::input::read_some;
use stream::reason::fail;

// More reads than any run makes: a proved loop has to end, and a line has to have a number.
const MOST_READS: usize = 140737488355328;

// Prints the summary. What is known is there for the condition alone.
fn print_summary(
    rt: &(impl Print + Eprint),
    held: Held,
    kept: &[u8; 1024],
    ledger: &[u64; 69],
    text: &[u8],
) -> Result<()>
    requires { specs.Sums (specs.progress ledger.now held kept.now) text.now }
{
    hand_over(rt, text)
}

// Tells of the line that the end of the input ends, if a byte of it came.
fn tell_last(
    rt: &(impl Print + Eprint),
    held: Held,
    kept: &[u8; 1024],
    ledger: &mut [u64; 69],
) -> Result<()>
    requires { specs.Came (specs.progress ledger.old held kept.now) 0 }
    ensures { ledger.new ≡ specs.last_ledger (specs.progress ledger.old held kept.now) }
{
    if held.total == 0 {
        return Ok(());
    }
    tell_held(rt, held, kept, ledger, held.total)
}

// What there is to print at the end of the input.
fn finish(
    rt: &(impl Print + Eprint),
    held: Held,
    kept: &[u8; 1024],
    ledger: &[u64; 69],
) -> Result<()>
    requires { specs.Came (specs.progress ledger.now held kept.now) 0 }
{
    let mut all = *ledger;
    tell_last(rt, held, kept, &mut all)?;
    let mut out = [0u8; 4096];
    let n = put_summary(&mut out, 0, &all);
    print_summary(rt, held, kept, ledger, &out[..n])
}

fn main(rt: HostRuntime) {
    let mut source = rt.stdin();
    let mut kept = [0u8; 1024];
    let mut ledger = [0u64; 69];
    let mut held = Held::none(1);
    let mut space = [0u8; 65536];
    for _turn in 0..MOST_READS {
        let n = match read_some(&mut source, &mut space) {
            Ok(n) => n,
            Err(why) => {
                fail(&rt, "pdbreport: standard input", why);
                return;
            }
        };
        if n == 0 {
            let _ = finish(&rt, held, &kept, &ledger);
            return;
        }
        let Ok(next) = take_part(&rt, held, &mut kept, &mut ledger, &space[..n]) else {
            return;
        };
        held = next;
    }
}
