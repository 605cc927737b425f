// What there is to write for a part of the input, and at its end.
ghost use Rattle.std.specs.Prelude.{◌≡◌, ◌<◌, ◌≤◌, length, IfOk};

use crate::held::Held;
use crate::turn::{put_text, turn};
use std::io::Result;
use stream::reason::fail;

// Writes what there is for each of the two outputs, or says on standard error why standard output can't be written.
fn hand_over(
    output: &impl Print,
    errors: &(impl Print + Eprint),
    text: &[u8],
    rows: &[u8],
) -> Result<()> {
    output
        .write_all(text)
        .inspect_err(|why| fail(errors, "pdbmend: standard output", *why))?;
    errors.write_all(rows)
}

// Writes the lines that a part finishes, one after the other, and answers what is held behind the part.
pub fn write_part(
    output: &impl Print,
    errors: &(impl Print + Eprint),
    held: Held,
    kept: &mut [u8; 1026],
    part: &[u8],
) -> Result<Held>
    requires { held.n < 1026 }
    ensures { IfOk result (λ next. next.n < 1026) }
{
    let mut out = [0u8; 4096];
    let mut rows = [0u8; 65536];
    let mut h = held;
    let mut at = 0;
    // No iterator counts this: each turn says how far it comes.
    while at < part.len() {
        let turned = turn(h, kept, part, at, &mut out, &mut rows);
        hand_over(output, errors, &out[..turned.n], &rows[..turned.rows])?;
        h = turned.held;
        at = turned.at;
    }
    Ok(h)
}

// Writes the last line, if no LF ended it.
pub fn write_last(
    output: &impl Print,
    errors: &(impl Print + Eprint),
    held: Held,
    kept: &[u8; 1026],
) -> Result<()>
    requires { held.n < 1026 }
{
    let mut out = [0u8; 4096];
    let mut rows = [0u8; 65536];
    let put = put_text(held, kept, &mut out, &mut rows);
    hand_over(output, errors, &out[..put.n], &rows[..put.rows])
}
