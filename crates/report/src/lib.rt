// What is printed for a line: its listing, or the rows of its refusal; and, in `fill`, for the lines of a file.
#![tactic(auto)]

ghost use Rattle.std.specs.Prelude.{◌≡◌, length};
ghost use Rattle.page.specs.Page.{page, put};
ghost use Rattle.report.specs.Report.{refused_rows, report_of};

use layout::{put_head, put_three};
use lexitem::answer::Refusal;
use line::options::Options;
use listing::list_line;

pub mod fill;

// The rows of a refusal.
pub fn put_refused(out: &mut [u8], at: usize, number: usize, refusal: Refusal) -> usize
    ensures { page out.new result ≡ put (page out.old at) (refused_rows number refusal) }
{
    let why = put_head(out, at, b"REFUSED", number as u64);
    put_three(
        out,
        why,
        b"refusal=",
        refusal.number as u64,
        refusal.place as u64,
        refusal.length as u64,
    )
}

// A line's listing at the front of lent bytes, or the rows of its refusal. A line whose listing has no room there is refused for that.
pub fn put_report(
    line: &[u8],
    number: usize,
    options: Options,
    remarks: &[u8],
    out: &mut [u8],
) -> usize
    ensures { page out.new result ≡ put (page out.old 0) (report_of (length out.old) (record { line = line.entry.now; number = number; options = options; remarks = remarks.now })) }
{
    match list_line(line, number, options, remarks, out) {
        Ok(n) => n,
        Err(refusal) => put_refused(out, 0, number, refusal),
    }
}
