// Decimals with an exponent: a plain decimal, then `e` or `E`, an optional sign, at least one digit, in at most ten bytes. The written number is
// its sign, M, p and the exponent.
ghost use Rattle.std.specs.Prelude.{◌≡◌, ◌≤◌, length, position};
ghost use Rattle.number.specs.Wide as specs;

use crate::decimal::{Decimal, read_plain};
use crate::trim::trim;
use crate::whole::{after_sign, begins, read_digits};

// A written number with an exponent: whether that is below zero, and its size.
#[derive(Clone, Copy)]
pub struct Wide {
    pub decimal: Decimal,
    pub lower: bool,
    pub exponent: u64,
}

#[tactic(auto, unfolding(crate::specs::Wide::mark))]
fn is_mark(b: u8) -> bool
    ensures { result ≡ specs.mark b }
{
    b == 101 || b == 69
}

// Where the first `e` or `E` stands.
fn first_mark(text: &[u8]) -> Option<usize>
    ensures { result ≡ position specs.mark text.now }
{
    text.iter().position(|b| is_mark(*b))
}

// What stands before a mark, with what stands behind it.
fn marked_parts(front: &[u8], behind: &[u8]) -> Option<Wide>
    requires { length front.now ≤ 10 }
    ensures { result ≡ specs.marked_parts front.now behind.now }
{
    let decimal = read_plain(begins(45, front), after_sign(front))?;
    let exponent = read_digits(after_sign(behind))?;
    Some(Wide {
        decimal,
        lower: begins(45, behind),
        exponent,
    })
}

// What a text of up to ten bytes says with an exponent.
fn marked_in(text: &[u8]) -> Option<Wide>
    requires { length text.now ≤ 10 }
    ensures { result ≡ specs.marked_in text.now }
{
    let at = first_mark(text)?;
    marked_parts(&text[..at], &text[at + 1..])
}

// A plain decimal is none of these.
pub fn read_marked(text: &[u8]) -> Option<Wide>
    ensures { result ≡ specs.marked_of text.now }
{
    let t = trim(text);
    if 10 < t.len() {
        return None;
    }
    marked_in(t)
}
