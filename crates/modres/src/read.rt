// MODRES.
ghost use Rattle.std.specs.Prelude.{◌≡◌};
ghost use Rattle.line.specs.Given.{alone};
ghost use Rattle.modres.specs.Modres as specs;

use crate::record::Modres;
use field::number_field::signed;
use field::text_field::{character, optional, text, text_from};
use line::fault::{Faults, Got};

pub fn lex_modres(line: &[u8]) -> Got<Modres>
    ensures { result ≡ specs.got_modres (alone line.now) }
{
    let code = text(line, Modres::CODE, Faults::none());
    let residue = text(line, Modres::RESIDUE, code.faults);
    let chain = character(line, Modres::CHAIN, residue.faults);
    let number = signed(line, Modres::NUMBER, chain.faults);
    let insertion = optional(line, Modres::INSERTION, number.faults);
    let standard = text(line, Modres::STANDARD, insertion.faults);
    let comment = text_from(line, Modres::COMMENT);
    let modres = Modres::new(
        code.value,
        residue.value,
        chain.value,
        number.value,
        insertion.value,
        standard.value,
        comment,
    );
    Got {
        value: modres,
        faults: standard.faults,
    }
}
