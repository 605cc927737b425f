// SSBOND. Its serial number is not read.
ghost use Rattle.std.specs.Prelude.{◌≡◌};
ghost use Rattle.line.specs.Given.{taking};
ghost use Rattle.ssbond.specs.Ssbond as specs;

use crate::record::{Bond, Residue, ResidueAt, SSBond};
use field::number_field::{real, signed};
use field::text_field::{character, optional, text};
use line::fault::{Faults, Got};

// One side of the bond.
fn lex_residue(line: &[u8], at: ResidueAt, faults: Faults) -> Got<Residue>
    ensures { result ≡ specs.got_residue line.now at faults }
{
    let name = text(line, at.name, faults);
    let chain = character(line, at.chain, name.faults);
    let number = signed(line, at.number, chain.faults);
    let insertion = optional(line, at.insertion, number.faults);
    Got {
        value: Residue::new(name.value, chain.value, number.value, insertion.value),
        faults: insertion.faults,
    }
}

// The operators and the length, in a line that reaches the length's last column.
fn lex_tail(line: &[u8], exponents: bool, faults: Faults) -> Got<Option<Bond>>
    ensures { result ≡ specs.got_tail exponents line.now faults }
{
    if line.len() < SSBond::LENGTH.end as usize {
        return Got {
            value: None,
            faults,
        };
    }
    let first = text(line, SSBond::OPERATOR, faults);
    let second = text(line, SSBond::OTHER_OPERATOR, first.faults);
    let length = real(line, SSBond::LENGTH, 0.0, exponents, second.faults);
    let bond = Bond {
        first: first.value,
        second: second.value,
        length: length.value.value,
        places: length.value.places,
    };
    Got {
        value: Some(bond),
        faults: length.faults,
    }
}

pub fn lex_ssbond(line: &[u8], exponents: bool) -> Got<SSBond>
    ensures { result ≡ specs.got_ssbond (taking exponents line.now) }
{
    let first = lex_residue(line, SSBond::FIRST, Faults::none());
    let second = lex_residue(line, SSBond::SECOND, first.faults);
    let tail = lex_tail(line, exponents, second.faults);
    Got {
        value: SSBond::new(first.value, second.value, tail.value),
        faults: tail.faults,
    }
}
