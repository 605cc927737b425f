// The reports of a file's lines into lent bytes, as many whole lines as there is room for. Whoever goes on from where a filling stopped, until
// the file ends, has had the report of each line once and in order, whatever it lends, from 4,096 bytes up.
ghost use Rattle.std.specs.Prelude.{◌≡◌, ◌+◌, ◌≤◌, length};
ghost use Rattle.listing.specs.Listing.{longest};
ghost use Rattle.page.specs.Page.{page, put};
ghost use Rattle.report.specs.Fill as specs;
ghost use Rattle.report.specs.Report.{input_of, report, report_of};

use crate::put_report;
use line::options::Options;
use walker::lines::line;
use walker::{following, step};

// Room enough for any report.
pub const LONGEST: usize = 4096;

// A line's report at the front of lent bytes, the line being read as the program reads it.
pub fn put_line(text: &[u8], number: usize, out: &mut [u8]) -> usize
    ensures { page out.new result ≡ put (page out.old 0) (report_of (length out.old) (input_of number text.now)) }
{
    let remarks = [1u8; 1000];
    put_report(text, number, Options::PLAIN, &remarks, out)
}

// A line's report behind the first n of lent bytes. It is lent no more than the longest report needs, so that what is put doesn't depend on how
// many bytes there are.
fn put_behind(text: &[u8], number: usize, out: &mut [u8], n: usize) -> usize
    requires { n + longest ≤ length out.old }
    ensures { specs.PutBehind out.old n (report number text.now) out.new result }
{
    let most = n + LONGEST;
    put_line(text, number, &mut out[n..most])
}

// Where the first line stands that was not put, its number, and how many bytes were put.
#[derive(Clone, Copy)]
pub struct Filled {
    pub at: usize,
    pub number: usize,
    pub n: usize,
}

// The reports of the lines from an offset on, the first having a number, while there is room for the longest.
pub fn put_reports(file: &[u8], at: usize, number: usize, out: &mut [u8]) -> Filled
    ensures { specs.Fills out.old (specs.filling (length out.old) file.now at number) out.new result }
{
    let mut filled = Filled { at, number, n: 0 };
    // No iterator counts this: each line says where the next one begins, and how much room is left.
    while LONGEST <= out.len() - filled.n {
        let Some(found) = step(file, filled.at) else {
            return filled;
        };
        let text = line(file, found.start, found.end);
        let more = put_behind(text, filled.number, out, filled.n);
        filled = Filled {
            at: found.next,
            number: following(filled.number),
            n: filled.n + more,
        };
    }
    filled
}
