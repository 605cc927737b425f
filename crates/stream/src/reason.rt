// Why something can't be read or written, on standard error.
use std::fmt::InlineText;
use std::io::Error;

// Writes a line: what failed, as the caller names it, and the system's words for why, without the number that stands behind them.
pub fn fail(rt: &impl Eprint, what: &str, why: Error) {
    let all = InlineText::<256>::of(why);
    let text = all.as_str();
    let words = text
        .split_once(" (os error ")
        .map_or(text, |(words, _)| words);
    let _ = eprintln!(rt; "{what}: {words}");
}
