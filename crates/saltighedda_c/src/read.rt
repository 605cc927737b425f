// What C hosts call to read a line: its fields and its faults, as words.
ghost use Rattle.packing.specs.Options.{input_of};
ghost use Rattle.reading.specs.Read as specs;

#[unsafe(no_mangle)]
pub extern "C" fn saltighedda_read(
    line: &[u8],
    number: usize,
    options: u32,
    remarks: &[u8],
    kind: u32,
    fields: &mut [u64],
    faults: &mut [u64],
) -> u64
    ensures { specs.Reads line.now (specs.answered kind (input_of line.now number options remarks.now)) fields.old faults.old result fields.new faults.new }
{
    saltighedda::read::saltighedda_read(line, number, options, remarks, kind, fields, faults)
}
