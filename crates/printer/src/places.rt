// How many decimals a real gets.
ghost use Rattle.std.specs.Prelude.{◌≡◌};
ghost use Rattle.printer.specs.Sheets.{places_at};

// Those that are asked for, and where nothing is asked the format's.
pub(crate) fn places_at(asked: &[u8], n: usize, format: usize) -> usize
    ensures { result ≡ places_at asked.now n format }
{
    if n < asked.len() {
        return asked[n] as usize;
    }
    format
}
