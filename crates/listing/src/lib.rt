// `list_line`: a line's listing into lent bytes. One emitter puts it, once on a byte of its own to measure it, and
// then, if it fits, on the lent bytes. So lent bytes that are too few stay as they are.
#![tactic(auto)]

ghost use Rattle.std.specs.Prelude.{◌≡◌, ◌≤◌, length, take};
ghost use Rattle.listing.specs.Listed as into;
ghost use Rattle.listing.specs.Listing as specs;
ghost use Rattle.layout.specs.Label.{head_rows};
ghost use Rattle.page.specs.Page.{page, put};
ghost use Rattle.kind.specs.Name.{name_of};
ghost use Rattle.lexitem.specs.Describe.{kind_of_item};

mod fault;

use crate::fault::put_faults;
use kind::name::name_of;
use layout::rows::put_rows;
use layout::{put_head, put_number};
use lexer::lex_line;
use lexitem::answer::Refusal;
use lexitem::fault::LineFaults;
use lexitem::item::{LexItem, rows_of};
use line::options::Options;

// No listing has more bytes.
const LONGEST: usize = 4096;

// The head of a listing, with the name of the record.
fn put_name(out: &mut [u8], at: usize, item: LexItem, number: usize) -> usize
    ensures { page out.new result ≡ put (page out.old at) (head_rows (name_of (kind_of_item item)) number) }
{
    put_head(out, at, name_of(item.kind()), number as u64)
}

// The one emitter.
fn put_listing(
    out: &mut [u8],
    at: usize,
    line: &[u8],
    number: usize,
    item: LexItem,
    faults: LineFaults,
) -> usize
    requires { faults.count ≤ 15 }
    ensures { page out.new result ≡ put (page out.old at) (specs.listing_of number line.now item (take faults.count faults.list)) }
{
    let fields = put_name(out, at, item, number);
    let rows = rows_of(item);
    let list = rows.list;
    let total = put_rows(out, fields, line, list);
    let each = put_number(out, total, b"faults=", faults.count as u64);
    put_faults(out, each, faults)
}

// What is answered where there is so much room. One byte of our own is enough to measure a listing.
fn measure(
    line: &[u8],
    number: usize,
    item: LexItem,
    faults: LineFaults,
    room: usize,
) -> Result<usize, Refusal>
    requires { (faults.count ≤ 15) × (length (specs.listing_of number line.now item (take faults.count faults.list)) ≤ specs.longest) }
    ensures { result ≡ into.fitted_answer room (specs.listing_of number line.now item (take faults.count faults.list)) }
{
    let mut one = [0u8; 1];
    let needed = put_listing(&mut one, 0, line, number, item, faults);
    if room < needed {
        return Err(Refusal::new(8, 0, needed));
    }
    Ok(needed)
}

// Measures the listing, and writes it if it fits. Where there is room for the longest it needn't be measured.
fn fit(
    line: &[u8],
    number: usize,
    item: LexItem,
    faults: LineFaults,
    out: &mut [u8],
) -> Result<usize, Refusal>
    requires { (faults.count ≤ 15) × (length (specs.listing_of number line.now item (take faults.count faults.list)) ≤ specs.longest) }
    ensures { into.Fitted out.old (specs.listing_of number line.now item (take faults.count faults.list)) result out.new }
{
    if out.len() < LONGEST {
        measure(line, number, item, faults, out.len())?;
    }
    Ok(put_listing(out, 0, line, number, item, faults))
}

// Lists a line of any bytes into lent bytes of any number: how many bytes it wrote at their front, or why it wrote none.
// The remark table has 1,000 bytes, byte n nonzero when remark number n is valid.
pub fn list_line(
    line: &[u8],
    number: usize,
    options: Options,
    remarks: &[u8],
    out: &mut [u8],
) -> Result<usize, Refusal>
    ensures { into.ListedInto out.old (record { line = line.entry.now; number = number; options = options; remarks = remarks.now }) result out.new }
{
    let answer = lex_line(line, number, options, remarks);
    let item = answer.outcome?;
    fit(line, number, item, answer.faults, out)
}

// What `list_line` answers where so many bytes are lent, without them.
pub fn measure_line(
    line: &[u8],
    number: usize,
    options: Options,
    remarks: &[u8],
    room: usize,
) -> Result<usize, Refusal>
    ensures { result ≡ into.measured room (record { line = line.entry.now; number = number; options = options; remarks = remarks.now }) }
{
    let answer = lex_line(line, number, options, remarks);
    let item = answer.outcome?;
    measure(line, number, item, answer.faults, room)
}
