// SEQRES.
ghost use Rattle.std.specs.Prelude.{◌≡◌, ◌+◌, ◌≤◌, length};
ghost use Rattle.line.specs.Given.{alone};
ghost use Rattle.seqres.specs.Seqres as specs;

use crate::record::Seqres;
use field::number_field::unsigned;
use field::text_field::character;
use line::fault::{Faults, Got};

// Whether three blanks stand at a column, all three in the line.
#[tactic(auto, unfolding(crate::specs::Seqres::blank_triple))]
fn is_blank_triple(line: &[u8], at: usize) -> bool
    requires { at + 3 ≤ length line.now }
    ensures { result ≡ specs.blank_triple line.now at }
{
    line[at..at + Seqres::WIDTH] == [b' '; Seqres::WIDTH]
}

// How many triples stand in the line, up to its end, the last column for them or the first blank one.
fn count_triples(line: &[u8]) -> usize
    ensures { result ≡ specs.triples_of line.now }
{
    for n in 0..Seqres::MOST {
        let at = Seqres::FIRST + Seqres::STEP * n;
        if line.len() < at + Seqres::WIDTH || is_blank_triple(line, at) {
            return n;
        }
    }
    Seqres::MOST
}

pub fn lex_seqres(line: &[u8]) -> Got<Seqres>
    ensures { result ≡ specs.got_seqres (alone line.now) }
{
    let serial = unsigned(line, Seqres::SERIAL, Faults::none());
    let chain = character(line, Seqres::CHAIN, serial.faults);
    let residues = unsigned(line, Seqres::RESIDUES, chain.faults);
    Got {
        value: Seqres::new(
            serial.value,
            chain.value,
            residues.value,
            count_triples(line),
        ),
        faults: residues.faults,
    }
}
