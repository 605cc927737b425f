// What the speed bench calls: every line of a lent file through `lex_line`, and a checksum of what came of it. A host that
// reads the same fields can work out the same checksum, so that both are known to have done the same work.
#![tactic(auto)]

ghost use Rattle.std.specs.Prelude.{◌≡◌};
ghost use Rattle.line.specs.Options.{plain};
ghost use Rattle.lexer.specs.Lexed.{lexed};
ghost use Rattle.bench_read.specs.Checksum as specs;

use atom::record::Atom;
use lexer::lex_line;
use lexitem::answer::Refusal;
use lexitem::item::LexItem;
use line::options::Options;
use page::bits_of;
use walker::Line;
use walker::lines::{line, line_at};

fn mixed(sum: u64, value: u64) -> u64
    ensures { result ≡ specs.mixed sum value }
{
    sum.wrapping_mul(3).wrapping_add(value)
}

fn mixed_real(sum: u64, x: f64) -> u64
    ensures { result ≡ specs.mixed_real sum x }
{
    mixed(sum, bits_of(x))
}

fn mixed_atom(sum: u64, atom: Atom) -> u64
    ensures { result ≡ specs.mixed_atom sum atom }
{
    let position = atom.position;
    let x = mixed_real(sum, position.x);
    let y = mixed_real(x, position.y);
    let z = mixed_real(y, position.z);
    let occupancy = mixed_real(z, atom.occupancy);
    mixed_real(occupancy, atom.bfactor)
}

fn mixed_outcome(sum: u64, outcome: Result<LexItem, Refusal>) -> u64
    ensures { result ≡ specs.mixed_outcome sum outcome }
{
    match outcome {
        Ok(LexItem::Atom(atom)) => mixed_atom(sum, atom),
        _ => sum,
    }
}

fn mixed_line(sum: u64, text: &[u8], number: usize, remarks: &[u8]) -> u64
    ensures { result ≡ specs.mixed_answer sum (lexed (record { line = text.now; number = number; options = plain; remarks = remarks.now })) }
{
    let answer = lex_line(text, number, Options::PLAIN, remarks);
    mixed(
        mixed_outcome(sum, answer.outcome),
        answer.faults.count as u64,
    )
}

// The checksum of a file of any bytes.
#[unsafe(no_mangle)]
pub extern "C" fn saltighedda_bench(file: &[u8]) -> u64
    ensures { result ≡ specs.checksum_of file.now }
{
    let remarks = [1u8; 1000];
    let mut sum = 0;
    let mut count = 0;
    let mut at = 0;
    // No iterator counts this: each line says where the next one begins.
    while let Some(Line { start, end, next }) = line_at(file, at) {
        let text = line(file, start, end);
        count += 1;
        sum = mixed_line(sum, text, count, &remarks);
        at = next;
    }
    sum
}
