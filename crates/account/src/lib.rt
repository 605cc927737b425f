// What people read of a line that wasn't read whole: which line it is and whose, the line itself, and under the columns of each fault what was put
// there; or why the line was refused.
#![tactic(auto)]

ghost use Rattle.std.specs.Prelude.{◌≡◌};
ghost use Rattle.lexitem.specs.Fault.{told, faults_in};
ghost use Rattle.page.specs.Page.{page, put};
ghost use Rattle.account.specs.Account as specs;

mod head;
mod refused;
mod rows;
mod text;

use crate::head::put_head;
use crate::refused::put_refused;
use crate::rows::{is_cut, put_rows};
use crate::text::{put_line, put_numbered};
use kind::Kind;
use lexitem::answer::Answer;
use lexitem::fault::LineFaults;
use line::fault::{Fault, Faults};
use page::put_bytes;

// What there is to say of a line of so many bytes and faults.
fn put_unread(out: &mut [u8], at: usize, cut: bool, size: usize, count: usize) -> usize
    ensures { page out.new result ≡ put (page out.old at) (specs.unread cut size count) }
{
    if cut {
        return put_numbered(out, at, b": the line ends after column ", size, b"\n");
    }
    if count == 1 {
        return put_bytes(out, at, b": 1 field was not read\n");
    }
    put_numbered(out, at, b": ", count, b" fields were not read\n")
}

// The rows of a line that has some faults.
fn put_faulty(
    out: &mut [u8],
    at: usize,
    line: &[u8],
    number: usize,
    kind: Kind,
    faults: &[Fault],
) -> usize
    ensures { page out.new result ≡ put (page out.old at) (specs.unread_rows number kind line.now faults.now) }
{
    let why = put_head(out, at, number, kind, line);
    let cut = is_cut(faults);
    let shown = put_unread(out, why, cut, line.len(), faults.len());
    let rows = put_line(out, shown, line);
    put_rows(out, rows, kind, faults)
}

// What there is to say of an accepted line: nothing if it has no faults. No list has more than it has room for.
fn put_accepted(out: &mut [u8], at: usize, line: &[u8], number: usize, faults: LineFaults) -> usize
    ensures { page out.new result ≡ put (page out.old at) (specs.accepted_rows number faults.kind line.now (faults_in (told faults))) }
{
    if faults.count == 0 {
        return at;
    }
    let count = faults.count.min(Faults::MOST);
    put_faulty(out, at, line, number, faults.kind, &faults.list[..count])
}

// What there is to say of a line, by its answer; 4,096 bytes hold it.
pub fn put_account(out: &mut [u8], at: usize, line: &[u8], answer: Answer) -> usize
    ensures { page out.new result ≡ put (page out.old at) (specs.account_of line.now answer) }
{
    match answer.outcome {
        Ok(_) => put_accepted(out, at, line, answer.line, answer.faults),
        Err(refusal) => put_refused(out, at, line, answer.line, refusal),
    }
}
