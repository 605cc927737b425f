// REMARK.
ghost use Rattle.std.specs.Prelude.{◌≡◌};
ghost use Rattle.line.specs.Options.{plain};
ghost use Rattle.remark.specs.Remark as specs;

use crate::record::Remark;
use field::number_field::unsigned;
use field::remark::known;
use field::text_field::end_text_from;
use line::fault::{Faults, Got};

pub fn lex_remark(line: &[u8], remarks: &[u8]) -> Got<Remark>
    ensures { result ≡ specs.got_remark (record { line = line.entry.now; options = plain; remarks = remarks.now }) }
{
    let number = unsigned(line, Remark::NUMBER, Faults::none());
    let faults = known(remarks, number.value, Remark::NUMBER, number.faults);
    let text = end_text_from(line, Remark::TEXT);
    Got {
        value: Remark::new(number.value, text),
        faults,
    }
}
