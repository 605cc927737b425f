// What is known of a file after some of its lines, as they come, and what is answered then.
ghost use Rattle.std.specs.Prelude.{◌≡◌};
ghost use Rattle.audit.specs.Audit.{refused};
ghost use Rattle.audit.specs.Watch as specs;

use crate::Compared;
use lexitem::answer::Refusal;
use master::record::Master;
use tally::Tally;

// The MASTER lines so far: none; one that can't be read, with its place and length; the numbers of one; or more than one, with the second's place
// and length.
#[derive(Clone, Copy)]
pub enum Masters {
    Missing,
    Unread { start: usize, length: usize },
    Numbers(Master),
    Several { start: usize, length: usize },
}

// The place behind the lines so far, what was counted in them, and their MASTER lines. A place stops at 2^64-1, and no file has so many bytes.
#[derive(Clone, Copy)]
pub struct Watch {
    pub at: usize,
    pub counted: Tally,
    pub masters: Masters,
}

impl Watch {
    // No line came.
    pub const NONE: Watch = Watch {
        at: 0,
        counted: Tally::NONE,
        masters: Masters::Missing,
    };
}

fn refuse(number: usize, place: usize, length: usize) -> Result<Compared, Refusal>
    ensures { result ≡ refused number place length }
{
    Err(Refusal::new(number, place, length))
}

// What is answered if these are all lines.
pub fn judge(watch: Watch) -> Result<Compared, Refusal>
    ensures { result ≡ specs.judged_by watch }
{
    let counted = watch.counted;
    let masters = watch.masters;
    match masters {
        Masters::Missing => refuse(10, 0, 0),
        Masters::Unread { start, length } => refuse(12, start, length),
        Masters::Several { start, length } => refuse(11, start, length),
        Masters::Numbers(said) => Ok(Compared { counted, said }),
    }
}
