// What C hosts call to ask how many decimals were written.
ghost use Rattle.packing.specs.Options.{input_of};
ghost use Rattle.answers.specs.Places as specs;

#[unsafe(no_mangle)]
pub extern "C" fn saltighedda_places(
    line: &[u8],
    number: usize,
    options: u32,
    remarks: &[u8],
    out: &mut [u8],
) -> usize
    ensures { specs.Counts out.old (specs.places_for (input_of line.now number options remarks.now)) result out.new }
{
    saltighedda::places::saltighedda_places(line, number, options, remarks, out)
}
