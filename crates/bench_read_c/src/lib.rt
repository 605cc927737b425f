// What the bench links: the function of `bench_read` once more, under the same name and with the same clauses. A crate is a library or an archive:
// Rattle code calls `bench_read`, C this one.
#![tactic(auto)]

ghost use Rattle.std.specs.Prelude.{◌≡◌};
ghost use Rattle.bench_read.specs.Checksum as specs;

// The checksum of a file of any bytes.
#[unsafe(no_mangle)]
pub extern "C" fn saltighedda_bench(file: &[u8]) -> u64
    ensures { result ≡ specs.checksum_of file.now }
{
    bench_read::saltighedda_bench(file)
}
