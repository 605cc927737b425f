// What C hosts call: the listing of a line over numbers and byte slices alone, in `ask` which kind a line is, in `read` its fields and faults as
// words, in `places` how many decimals were written, in `write` the lines that are written, in `transform` the positions that are moved, in
// `check` a file that is held against its MASTER line, and in `mending` a line that is mended. In C a slice is a pointer and a length, as
// include/saltighedda.h has it. Each is a call of the crate that does the work. An archive has the entries of the crate that it is made of and of no
// other, and a crate is a library or an archive: `saltighedda_c` is the archive, and calls each of these.
// Three of the calls tell of a refusal; they take the lent bytes of the first, and only their number counts.
#![tactic(auto)]

ghost use Rattle.packing.specs.Options.{input_of};
ghost use Rattle.answers.specs.Face as specs;

pub mod ask;
pub mod check;
pub mod mending;
pub mod places;
pub mod read;
pub mod transform;
pub mod write;

use answers::{list_into, list_length, list_place, list_refusal};

// How many bytes of the line's listing were written at the front of the lent ones; 0 says that it was refused, and that
// the lent bytes are as they were.
#[unsafe(no_mangle)]
pub extern "C" fn saltighedda_list(
    line: &[u8],
    number: usize,
    options: u32,
    remarks: &[u8],
    out: &mut [u8],
) -> usize
    ensures { specs.WrittenInto out.old (input_of line.now number options remarks.now) result out.new }
{
    list_into(line, number, options, remarks, out)
}

#[unsafe(no_mangle)]
pub extern "C" fn saltighedda_list_refusal(
    line: &[u8],
    number: usize,
    options: u32,
    remarks: &[u8],
    out: &mut [u8],
) -> usize
    ensures { specs.Told specs.number_of out.old (input_of line.now number options remarks.now) result out.new }
{
    list_refusal(line, number, options, remarks, out)
}

#[unsafe(no_mangle)]
pub extern "C" fn saltighedda_list_place(
    line: &[u8],
    number: usize,
    options: u32,
    remarks: &[u8],
    out: &mut [u8],
) -> usize
    ensures { specs.Told specs.place_of out.old (input_of line.now number options remarks.now) result out.new }
{
    list_place(line, number, options, remarks, out)
}

#[unsafe(no_mangle)]
pub extern "C" fn saltighedda_list_length(
    line: &[u8],
    number: usize,
    options: u32,
    remarks: &[u8],
    out: &mut [u8],
) -> usize
    ensures { specs.Told specs.length_of out.old (input_of line.now number options remarks.now) result out.new }
{
    list_length(line, number, options, remarks, out)
}
