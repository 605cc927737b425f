// SEQRES.
ghost use Rattle.std.specs.Prelude.{◌≡◌};
ghost use Rattle.seqres.specs.Seqres.{triple_of};

use line::columns::Columns;
use line::text::{Character, Text};

// A SEQRES: `triples` residue names, of three columns each and not trimmed.
#[derive(Clone, Copy)]
pub struct Seqres {
    pub serial: u64,
    pub chain: Character,
    pub residues: u64,
    pub triples: usize,
}

impl Seqres {
    pub const SERIAL: Columns = Columns { start: 7, end: 10 };

    pub const CHAIN: u16 = 11;

    pub const RESIDUES: Columns = Columns { start: 13, end: 17 };

    pub const FIRST: usize = 19;

    pub const STEP: usize = 4;

    pub const WIDTH: usize = 3;

    pub const MOST: usize = 13;

    pub fn new(serial: u64, chain: Character, residues: u64, triples: usize) -> Self
        ensures { result ≡ record { serial = serial; chain = chain; residues = residues; triples = triples } }
    {
        Seqres {
            serial,
            chain,
            residues,
            triples,
        }
    }

    // Where a residue name lies, the first having index 0.
    #[tactic(auto, unfolding(crate::specs::Seqres::triple_of))]
    pub fn triple(self, index: usize) -> Option<Text>
        ensures { result ≡ triple_of self.triples index }
    {
        if index < self.triples && index < Seqres::MOST {
            return Some(Text::new(Seqres::FIRST + Seqres::STEP * index, Seqres::WIDTH));
        }
        None
    }
}
