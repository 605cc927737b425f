// What `pdbmend` makes of a line: the line as it goes on, and a row for each change, or for why the line is left as it is.
#![tactic(auto)]

ghost use Rattle.std.specs.Prelude.{◌≡◌, ◌≤◌, length};
ghost use Rattle.page.specs.Page.{page, put};
ghost use Rattle.repair.specs.Repair as specs;

use crate::rows::{put_over, put_rows};
use mend::mend_line;
use page::put_bytes;

mod rows;

// How many bytes there are of the line, and of its rows.
#[derive(Clone, Copy)]
pub struct Repaired {
    pub n: usize,
    pub rows: usize,
}

// A line that is mended if it has at most 1,024 bytes, where there is room for those.
fn repair_with(line: &[u8], number: usize, out: &mut [u8], rows: &mut [u8]) -> Repaired
    requires { 1024 ≤ length out.old }
    ensures { specs.RepairsAs (specs.line_for line.now) (specs.rows_for number line.now) out.old rows.old out.new rows.new result }
{
    let mut changes = [0u64; 512];
    match mend_line(line, out, &mut changes) {
        Err(_) => {
            let n = put_bytes(out, 0, line);
            let m = put_over(rows, 0, number);
            Repaired { n, rows: m }
        }
        Ok(mended) => {
            let m = put_rows(line, number, &changes[..mended.changes], rows);
            Repaired {
                n: mended.size,
                rows: m,
            }
        }
    }
}

// The line as it goes on and its rows, each at the front of lent bytes. Whoever lends 1,024 bytes or more for the line has both; with fewer nothing is
// put.
pub fn repair_line(line: &[u8], number: usize, out: &mut [u8], rows: &mut [u8]) -> Repaired
    ensures { specs.Repairs line.now number out.old rows.old out.new rows.new result }
{
    if out.len() < 1024 {
        return Repaired { n: 0, rows: 0 };
    }
    repair_with(line, number, out, rows)
}
