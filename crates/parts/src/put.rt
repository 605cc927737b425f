// The report of a line that was held, at the front of lent bytes.
ghost use Rattle.std.specs.Prelude.{◌≤◌, length, take};
ghost use Rattle.listing.specs.Listing.{longest};
ghost use Rattle.parts.specs.Feed.{Puts};
ghost use Rattle.parts.specs.Held as specs;
ghost use Rattle.report.specs.Report.{report};

use carry::keep::MOST_KEPT;
use lexer::excess;
use lexitem::answer::Refusal;
use report::fill::{LONGEST, put_line};
use report::put_refused;

// The report of the first so many bytes of a text. It is lent no more than the longest report needs, so that what is put doesn't hang on how
// many bytes there are.
fn put_front(text: &[u8], size: usize, number: usize, out: &mut [u8]) -> usize
    requires { (size ≤ length text.now) × (longest ≤ length out.old) }
    ensures { Puts (report number (take size text.now)) out.old out.new result }
{
    put_line(&text[..size], number, &mut out[..LONGEST])
}

// The rows of refusal 2.
fn put_over(number: usize, size: usize, out: &mut [u8]) -> usize
    requires { longest ≤ length out.old }
    ensures { Puts (specs.over_rows number size) out.old out.new result }
{
    let why = Refusal::new(2, MOST_KEPT, excess(size));
    put_refused(&mut out[..LONGEST], 0, number, why)
}

// The report of the held line of so many bytes that has a number.
pub fn put_held(number: usize, kept: &[u8; 1024], size: usize, out: &mut [u8]) -> usize
    requires { longest ≤ length out.old }
    ensures { Puts (specs.held_text number size kept.now) out.old out.new result }
{
    if MOST_KEPT < size {
        return put_over(number, size, out);
    }
    put_front(kept, size, number, out)
}
