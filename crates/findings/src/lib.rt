// A file held against its MASTER line, as words for C hosts. A place in a file doesn't fit beside a refusal's number, so that two functions more tell
// place and length.
#![tactic(auto)]

ghost use Rattle.std.specs.Prelude.{◌≡◌};
ghost use Rattle.audit.specs.Audit.{checked};
ghost use Rattle.findings.specs.Check as specs;

use audit::check_master;
use audit::found::found_in;

// Answers 0, or a number alone.
pub fn check_into(file: &[u8], found: &mut [u64]) -> u64
    ensures { specs.Finds found.old (checked file.now) result found.new }
{
    match check_master(file) {
        Err(refusal) => refusal.number as u64,
        Ok(compared) => {
            if found.len() < 25 {
                return 8;
            }
            found[..25].copy_from_slice(&found_in(compared));
            0
        }
    }
}

// The two parts of a refusal: C takes one number from a call, so there is a function for each.
pub fn refused_place(file: &[u8]) -> u64
    ensures { result ≡ specs.place_of (checked file.now) }
{
    match check_master(file) {
        Err(refusal) => refusal.place as u64,
        Ok(_) => 0,
    }
}

pub fn refused_length(file: &[u8]) -> u64
    ensures { result ≡ specs.length_of (checked file.now) }
{
    match check_master(file) {
        Err(refusal) => refusal.length as u64,
        Ok(_) => 0,
    }
}
