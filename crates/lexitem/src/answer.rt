// What lexing a line answers.
ghost use Rattle.std.specs.Prelude.{◌≡◌};

use crate::fault::LineFaults;
use crate::item::LexItem;

// A refusal by document 01's number, with its place and length. It is three numbers and no enum, since hosts are told the three, and theorems speak of
// them (`refused_once`).
#[derive(Clone, Copy)]
pub struct Refusal {
    pub number: usize,
    pub place: usize,
    pub length: usize,
}

impl Refusal {
    pub fn new(number: usize, place: usize, length: usize) -> Self
        ensures { result ≡ record { number = number; place = place; length = length } }
    {
        Refusal {
            number,
            place,
            length,
        }
    }
}

// The line's number is handed through. A refusal stands beside an empty list of faults.
#[derive(Clone, Copy)]
pub struct Answer {
    pub line: usize,
    pub outcome: Result<LexItem, Refusal>,
    pub faults: LineFaults,
}
