// MODEL.
ghost use Rattle.std.specs.Prelude.{◌≡◌};
ghost use Rattle.line.specs.Given.{in_mode};
ghost use Rattle.model.specs.Model as specs;

use crate::record::Model;
use field::number_field::{unsigned, unsigned_from};
use line::fault::{Faults, Got};
use line::options::Mode;

pub fn lex_model(line: &[u8], mode: Mode) -> Got<Model>
    ensures { result ≡ specs.got_model (in_mode mode line.now) }
{
    let none = Faults::none();
    let number = match mode {
        Mode::Crate => unsigned_from(line, Model::NUMBER, none),
        Mode::WwPdb => unsigned(line, Model::SERIAL, none),
    };
    Got {
        value: Model::new(number.value, mode),
        faults: number.faults,
    }
}
