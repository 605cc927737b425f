// SEQADV.
ghost use Rattle.std.specs.Prelude.{◌≡◌};
ghost use Rattle.line.specs.Given.{alone};
ghost use Rattle.seqadv.specs.Seqadv as specs;

use crate::record::{Seqadv, Target};
use field::number_field::signed;
use field::text_field::{optional, text, text_from};
use line::fault::{Faults, Got};

fn is_blank(part: &[u8]) -> bool
    ensures { result ≡ specs.blanks part.now }
{
    part.iter().all(|b| *b == b' ')
}

// The residue of the database, where its columns aren't all blank.
#[tactic(auto, unfolding(crate::specs::Seqadv::has_target))]
fn lex_target(line: &[u8], faults: Faults) -> Got<Option<Target>>
    ensures { result ≡ specs.got_target line.now faults }
{
    if is_blank(Seqadv::TARGET.part(line)) {
        return Got {
            value: None,
            faults,
        };
    }
    let name = text(line, Seqadv::TARGET_NAME, faults);
    let number = signed(line, Seqadv::TARGET_NUMBER, name.faults);
    let target = Target {
        name: name.value,
        number: number.value,
    };
    Got {
        value: Some(target),
        faults: number.faults,
    }
}

pub fn lex_seqadv(line: &[u8]) -> Got<Seqadv>
    ensures { result ≡ specs.got_seqadv (alone line.now) }
{
    let code = text(line, Seqadv::CODE, Faults::none());
    let residue = text(line, Seqadv::RESIDUE, code.faults);
    let chain = text(line, Seqadv::CHAIN, residue.faults);
    let number = signed(line, Seqadv::NUMBER, chain.faults);
    let insertion = optional(line, Seqadv::INSERTION, number.faults);
    let database = text(line, Seqadv::DATABASE, insertion.faults);
    let accession = text(line, Seqadv::ACCESSION, database.faults);
    let target = lex_target(line, accession.faults);
    let comment = text_from(line, Seqadv::COMMENT);
    let seqadv = Seqadv::new(
        code.value,
        residue.value,
        chain.value,
        number.value,
        insertion.value,
        database.value,
        accession.value,
        target.value,
        comment,
    );
    Got {
        value: seqadv,
        faults: target.faults,
    }
}
