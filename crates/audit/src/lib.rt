// `check_master`: a whole lent file held against its MASTER record, line by line. What was counted and what MASTER says are handed out together; in
// `found` they are one list of words, with a bit for each number that differs. In `watch` is what is known after some lines, and `feed` takes a
// file in parts.
#![tactic(auto)]

ghost use Rattle.std.specs.Prelude.{◌≡◌};
ghost use Rattle.audit.specs.Audit.{checked};

pub mod feed;
pub mod found;
mod see;
pub mod watch;

use crate::see::see_lines;
use crate::watch::{Watch, judge};
use lexitem::answer::Refusal;
use master::record::Master;
use tally::Tally;

// What was counted in a file, and what its MASTER says.
#[derive(Clone, Copy)]
pub struct Compared {
    pub counted: Tally,
    pub said: Master,
}

// Checks a file of any bytes: both counts, or a refusal by document 02's number, with its place and length in the file.
pub fn check_master(file: &[u8]) -> Result<Compared, Refusal>
    ensures { result ≡ checked file.now }
{
    judge(see_lines(Watch::NONE, file))
}
