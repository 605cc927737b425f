// What there is to print for a part of the input, and at its end, on standard output.
ghost use Rattle.std.specs.Prelude.{◌≡◌, ◌+◌, length, IfOk};
ghost use Rattle.parts.specs.Feed.{part_text};
ghost use Rattle.parts.specs.Held.{last_text};
ghost use Rattle.stream.specs.Printed as specs;

use crate::reason::fail;
use carry::held::Held;
use parts::{feed, finish};
use std::io::Result;

// Writes a text, or says on standard error why it can't.
fn hand_over(rt: &(impl Print + Eprint), text: &[u8]) -> Result<()> {
    rt.write_all(text)
        .inspect_err(|why| fail(rt, "pdblist: standard output", *why))
}

// Prints bytes that stand behind `done` others in what there is to print for a part, by what was held before it, and answers how many were handed
// over so far. That and the part are there for the condition alone.
fn print_next(
    rt: &(impl Print + Eprint),
    held: Held,
    kept: &[u8; 1024],
    part: &[u8],
    done: usize,
    text: &[u8],
) -> Result<usize>
    requires { specs.Stands (part_text (record { held = held; kept = kept.now }) part.now) done text.now }
    ensures { IfOk result (λ all. all ≡ done + length text.now) }
{
    hand_over(rt, text)?;
    Ok(done + text.len())
}

// Prints the reports of the lines that a part finishes, behind the parts that came before it, as many at once as have room. It answers what is held
// behind the part, all of whose bytes are taken, and how many bytes were handed over.
pub fn print_part(
    rt: &(impl Print + Eprint),
    held: Held,
    kept: &mut [u8; 1024],
    part: &[u8],
) -> Result<(Held, usize)>
    requires { specs.Comes (record { held = held; kept = kept.old }) part.now }
    ensures { IfOk result (λ went. specs.GoesOn (record { held = held; kept = kept.old }) part.now kept.new went.0 went.1) }
{
    let before = *kept;
    let mut space = [0u8; 65536];
    let mut h = held;
    let mut at = 0;
    let mut done = 0;
    // No iterator counts this: each turn says how far it comes.
    while at < part.len() {
        let fed = feed(h, kept, part, at, &mut space);
        let n = fed.n;
        done = print_next(rt, held, &before, part, done, &space[..n])?;
        h = fed.held;
        at = fed.at;
    }
    Ok((h, done))
}

// Prints all that there is to print at the end of the input, by what was held before it.
fn print_end(rt: &(impl Print + Eprint), held: Held, kept: &[u8; 1024], text: &[u8]) -> Result<()>
    requires { text.now ≡ last_text (record { held = held; kept = kept.now }) }
{
    hand_over(rt, text)
}

// Prints the report of the last line, if no LF ended it.
pub fn print_last(rt: &(impl Print + Eprint), held: Held, kept: &[u8; 1024]) -> Result<()>
    requires { specs.Came (record { held = held; kept = kept.now }) }
{
    let mut space = [0u8; 4096];
    let n = finish(held, kept, &mut space);
    print_end(rt, held, kept, &space[..n])
}
