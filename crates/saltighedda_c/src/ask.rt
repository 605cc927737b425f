// What C hosts call to ask which kind a line is, without reading it.
ghost use Rattle.std.specs.Prelude.{◌≡◌};
ghost use Rattle.lexer.specs.Lexed.{kind_asked};
ghost use Rattle.packing.specs.Options.{options_of};
ghost use Rattle.answers.specs.Ask as specs;

#[unsafe(no_mangle)]
pub extern "C" fn saltighedda_kind(line: &[u8], options: u32) -> u64
    ensures { result ≡ specs.kind_word (kind_asked line.now (options_of options)) }
{
    saltighedda::ask::saltighedda_kind(line, options)
}
