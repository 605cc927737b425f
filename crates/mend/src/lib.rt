// Mending a line: bytes of 128 or more are made `?`, and a short ATOM or HETATM is padded with blanks to 80 if none of its fields is cut. What was
// changed comes beside it.
#![tactic(auto)]

ghost use Rattle.std.specs.Prelude.{◌≡◌, ◌+◌, ◌≤◌, length, replicate};
ghost use Rattle.std.proofs.lemmas.List.Edits.{sets};
ghost use Rattle.mend.specs.Mending as specs;
ghost use Rattle.mend.specs.Mend.{mended_byte, questioned, mended, padding};

use crate::changes::note_changes;
use crate::cut::padding;
use lexer::excess;
use lexitem::answer::Refusal;

mod changes;
pub mod cut;

fn mended_byte(b: u8) -> u8
    ensures { result ≡ mended_byte b }
{
    if b < 128 {
        return b;
    }
    63
}

// The bytes of a line, mended, at the front of the output.
fn put_line(line: &[u8], out: &mut [u8])
    requires { length line.now ≤ length out.old }
    ensures { out.new ≡ sets out.old 0 (questioned line.now) }
{
    for (i, b) in line.iter().enumerate() {
        out[i] = mended_byte(*b);
    }
}

// So many blanks from a place on.
fn put_blanks(out: &mut [u8], at: usize, n: usize)
    requires { at + n ≤ length out.old }
    ensures { out.new ≡ sets out.old at (replicate n 32) }
{
    out[at..at + n].fill(32);
}

// The mended line, at the front of the output.
fn put_mended(line: &[u8], out: &mut [u8], pad: usize)
    requires { (pad ≡ padding line.now) × (length line.now + pad ≤ length out.old) }
    ensures { out.new ≡ sets out.old 0 (mended line.now) }
{
    put_line(line, out);
    put_blanks(out, line.len(), pad);
}

// The refusal of a line that is mended into so many bytes, or None.
pub fn refusal_of(line: &[u8], room: usize) -> Option<Refusal>
    ensures { result ≡ specs.refusal_of line.now room }
{
    let n = line.len();
    if 1024 < n {
        return Some(Refusal::new(2, 1024, excess(n)));
    }
    let size = n + padding(line);
    if room < size {
        return Some(Refusal::new(8, 0, size));
    }
    None
}

// The length of the mended line, and how many changes there are.
#[derive(Clone, Copy)]
pub struct Mended {
    pub size: usize,
    pub changes: usize,
}

// Mends a line into lent bytes, with its changes in lent words, of which 512 always suffice; or says why nothing is done.
pub fn mend_line(line: &[u8], out: &mut [u8], changes: &mut [u64]) -> Result<Mended, Refusal>
    ensures { specs.Mends line.now out.old changes.old result out.new changes.new }
{
    if let Some(why) = refusal_of(line, out.len()) {
        return Err(why);
    }
    let pad = padding(line);
    put_mended(line, out, pad);
    let count = note_changes(line, changes, pad);
    Ok(Mended {
        size: line.len() + pad,
        changes: count,
    })
}
