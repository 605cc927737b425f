// What C hosts are told of a line in numbers and bytes: here its listing, in `kinds` which kind it is, in `places` how many decimals were written.
// Three functions, one for each name in C, tell of a listing's refusal; they take the lent bytes of the first, and only their number counts.
#![tactic(auto)]

ghost use Rattle.std.specs.Prelude.{◌≡◌};
ghost use Rattle.packing.specs.Options.{input_of};
ghost use Rattle.answers.specs.Face as specs;

pub mod kinds;
pub mod places;

use lexitem::answer::Refusal;
use listing::{list_line, measure_line};
use packing::options_of;

// How many bytes of the line's listing were written at the front of the lent ones; 0 says that it was refused, and that
// the lent bytes are as they were.
pub fn list_into(line: &[u8], number: usize, options: u32, remarks: &[u8], out: &mut [u8]) -> usize
    ensures { specs.WrittenInto out.old (input_of line.now number options remarks.now) result out.new }
{
    list_line(line, number, options_of(options), remarks, out).unwrap_or(0)
}

// The refusal of a line whose listing has so much room, all 0 where there is none.
fn refusal_of(line: &[u8], number: usize, options: u32, remarks: &[u8], room: usize) -> Refusal
    ensures { result ≡ specs.refusal_for room (input_of line.now number options remarks.now) }
{
    match measure_line(line, number, options_of(options), remarks, room) {
        Ok(_) => Refusal::new(0, 0, 0),
        Err(refusal) => refusal,
    }
}

// The three parts of a refusal: C takes one number from a call, so there is a function for each.
pub fn list_refusal(
    line: &[u8],
    number: usize,
    options: u32,
    remarks: &[u8],
    out: &mut [u8],
) -> usize
    ensures { specs.Told specs.number_of out.old (input_of line.now number options remarks.now) result out.new }
{
    refusal_of(line, number, options, remarks, out.len()).number
}

pub fn list_place(line: &[u8], number: usize, options: u32, remarks: &[u8], out: &mut [u8]) -> usize
    ensures { specs.Told specs.place_of out.old (input_of line.now number options remarks.now) result out.new }
{
    refusal_of(line, number, options, remarks, out.len()).place
}

pub fn list_length(
    line: &[u8],
    number: usize,
    options: u32,
    remarks: &[u8],
    out: &mut [u8],
) -> usize
    ensures { specs.Told specs.length_of out.old (input_of line.now number options remarks.now) result out.new }
{
    refusal_of(line, number, options, remarks, out.len()).length
}
