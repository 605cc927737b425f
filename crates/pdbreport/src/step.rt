// A part of the input: its bytes are taken line by line, and each line that an LF ends is told of.
ghost use Rattle.std.specs.Prelude.{◌≡◌, ◌<◌, ◌-◌, length, drop, IfOk};
ghost use Rattle.pdbreport.specs.Fed as specs;

use crate::tell::tell_held;
use carry::held::Held;
use carry::keep::{Absorbed, absorb};
use std::io::Result;
use walker::following;

// Takes bytes from an offset on, up to the first LF and with it, or all.
pub fn step(
    rt: &(impl Print + Eprint),
    held: Held,
    kept: &mut [u8; 1024],
    ledger: &mut [u64; 69],
    part: &[u8],
    at: usize,
) -> Result<Absorbed>
    requires { (specs.Came (specs.progress ledger.old held kept.old) (length part.now - at)) × (at < length part.now) }
    ensures { IfOk result (λ took. specs.Takes (specs.progress ledger.old held kept.old) (drop at part.now) at (specs.progress ledger.new took.held kept.new) took.at) }
{
    let absorbed = absorb(held, kept, part, at);
    let h = absorbed.held;
    let lf = absorbed.at;
    if part.len() <= lf {
        return Ok(absorbed);
    }
    tell_held(rt, h, kept, ledger, h.ended_size())?;
    Ok(Absorbed {
        held: Held::none(following(h.number)),
        at: lf + 1,
    })
}

// Takes all of a part, and answers what is held behind it.
pub fn take_part(
    rt: &(impl Print + Eprint),
    held: Held,
    kept: &mut [u8; 1024],
    ledger: &mut [u64; 69],
    part: &[u8],
) -> Result<Held>
    requires { specs.Came (specs.progress ledger.old held kept.old) (length part.now) }
    ensures { IfOk result (λ next. specs.progress ledger.new next kept.new ≡ specs.fed_all (specs.progress ledger.old held kept.old) part.now) }
{
    let mut h = held;
    let mut at = 0;
    // No iterator counts this: each step says how far it comes.
    while at < part.len() {
        let took = step(rt, h, kept, ledger, part, at)?;
        h = took.held;
        at = took.at;
    }
    Ok(h)
}
