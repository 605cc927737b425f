// Which kind a line is, without reading it.
ghost use Rattle.std.specs.Prelude.{◌≡◌};
ghost use Rattle.lexer.specs.Lexed.{kind_asked};
ghost use Rattle.packing.specs.Options.{options_of};
ghost use Rattle.answers.specs.Ask as specs;

use kind::numbered::number_of;
use lexer::kind_line;
use packing::{options_of, packed};

// The kind's number, or the refusal as one number.
pub fn kind_word(line: &[u8], options: u32) -> u64
    ensures { result ≡ specs.kind_word (kind_asked line.now (options_of options)) }
{
    match kind_line(line, options_of(options)) {
        Ok(kind) => number_of(kind) as u64,
        Err(refusal) => packed(refusal),
    }
}
