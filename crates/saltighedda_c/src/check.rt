// What C hosts call to hold a file against its MASTER line. A place in a file doesn't fit beside a refusal's number, so that two calls more tell
// place and length.
ghost use Rattle.std.specs.Prelude.{◌≡◌};
ghost use Rattle.audit.specs.Audit.{checked};
ghost use Rattle.findings.specs.Check as specs;

#[unsafe(no_mangle)]
pub extern "C" fn saltighedda_check_master(file: &[u8], found: &mut [u64]) -> u64
    ensures { specs.Finds found.old (checked file.now) result found.new }
{
    saltighedda::check::saltighedda_check_master(file, found)
}

#[unsafe(no_mangle)]
pub extern "C" fn saltighedda_check_master_place(file: &[u8]) -> u64
    ensures { result ≡ specs.place_of (checked file.now) }
{
    saltighedda::check::saltighedda_check_master_place(file)
}

#[unsafe(no_mangle)]
pub extern "C" fn saltighedda_check_master_length(file: &[u8]) -> u64
    ensures { result ≡ specs.length_of (checked file.now) }
{
    saltighedda::check::saltighedda_check_master_length(file)
}
