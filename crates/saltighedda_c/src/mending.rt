// What C hosts call to mend a line. Of the lent words the first is the mended length and the second the number of changes; the changes follow.
ghost use Rattle.remedy.specs.Mend as specs;

#[unsafe(no_mangle)]
pub extern "C" fn saltighedda_mend(line: &[u8], out: &mut [u8], changes: &mut [u64]) -> u64
    ensures { specs.MendsInto line.now out.old changes.old result out.new changes.new }
{
    saltighedda::mending::saltighedda_mend(line, out, changes)
}
