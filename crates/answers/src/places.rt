// How many decimals were written.
ghost use Rattle.packing.specs.Options.{input_of};
ghost use Rattle.answers.specs.Places as specs;
ghost use Rattle.layout.specs.Places.{places_of};
ghost use Rattle.lexitem.specs.Describe.{fields_of};

use layout::places::{count_places, put_places};
use lexer::lex_line;
use lexitem::item::{LexItem, rows_of};
use packing::options_of;

// They are counted first, since an output that is too short keeps its bytes.
fn put_counted(item: LexItem, out: &mut [u8]) -> usize
    ensures { specs.Counts out.old (places_of (fields_of item)) result out.new }
{
    let rows = rows_of(item);
    let list = rows.list;
    if out.len() < count_places(list) {
        return 0;
    }
    put_places(out, 0, list)
}

// The places of a line's reals at the front of the lent bytes, and how many they are.
pub fn places_into(
    line: &[u8],
    number: usize,
    options: u32,
    remarks: &[u8],
    out: &mut [u8],
) -> usize
    ensures { specs.Counts out.old (specs.places_for (input_of line.now number options remarks.now)) result out.new }
{
    let answer = lex_line(line, number, options_of(options), remarks);
    match answer.outcome {
        Ok(item) => put_counted(item, out),
        Err(_) => 0,
    }
}
