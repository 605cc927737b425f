// What is counted of a file line by line, and the summary that people read.
#![tactic(auto)]

ghost use Rattle.std.specs.Prelude.{◌||◌, ◌≡◌, eqb};
ghost use Rattle.ledger.specs.Ledger as specs;

mod accepted;
pub mod summary;
mod words;

use crate::accepted::enter_accepted;
use crate::words::{add, one, raise};
use lexitem::answer::Answer;

// Whether there is a CR among the first 1,024 bytes of a line.
fn has_cr(line: &[u8]) -> bool
    ensures { result ≡ specs.has_cr line.now }
{
    line.iter().take(1024).any(|b| *b == 13)
}

// What is counted of any line.
fn enter_line(ledger: &mut [u64; 69], line: &[u8])
    ensures { ledger.new ≡ specs.with_line ledger.old line.now }
{
    let cr = has_cr(line);
    add(ledger, 0, 1);
    raise(ledger, 8, cr);
}

// Whether a refusal says that a line is too short.
fn is_cut(number: usize) -> bool
    ensures { result ≡ (eqb number 4 || eqb number 6) }
{
    if number == 4 {
        return true;
    }
    number == 6
}

// What is counted of a line that was refused.
fn enter_refused(ledger: &mut [u64; 69], number: usize)
    ensures { ledger.new ≡ specs.with_refused ledger.old number }
{
    let cut = one(is_cut(number));
    add(ledger, 3, 1);
    ledger[7] = cut;
}

// One line more, with what lexing it answered.
pub fn enter(ledger: &mut [u64; 69], line: &[u8], answer: Answer)
    ensures { ledger.new ≡ specs.entered ledger.old line.now answer }
{
    enter_line(ledger, line);
    match answer.outcome {
        Ok(_) => enter_accepted(ledger, answer.faults),
        Err(refusal) => enter_refused(ledger, refusal.number),
    }
}
