// What C hosts say and are told in one number: a line's options as bits, and a refusal.
#![tactic(auto)]

ghost use Rattle.std.specs.Prelude.{◌≡◌};
ghost use Rattle.packing.specs.Options.{mode_of, options_of};
ghost use Rattle.packing.specs.Packed.{packed_in};

use lexitem::answer::Refusal;
use line::options::{Mode, Options};

fn mode_of(bits: u32) -> Mode
    ensures { result ≡ mode_of bits }
{
    if bits / 4 % 2 == 1 {
        return Mode::WwPdb;
    }
    Mode::Crate
}

// The options by their bits. This and `packed` are no `From`, since their types are other crates'.
pub fn options_of(bits: u32) -> Options
    ensures { result ≡ options_of bits }
{
    let mode = mode_of(bits);
    Options {
        atoms: bits % 2 == 1,
        loose: bits / 2 % 2 == 1,
        mode,
        exponents: bits / 8 % 2 == 1,
    }
}

// A refusal as one number.
pub fn packed(refusal: Refusal) -> u64
    ensures { result ≡ packed_in refusal }
{
    let number = refusal.number as u64 % 65536;
    let place = refusal.place as u64 % 65536;
    let length = refusal.length as u64 % 4294967296;
    number * 281474976710656 + place * 4294967296 + length
}
