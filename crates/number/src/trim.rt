// Trim takes off bytes 9 to 13 and 32.
ghost use Rattle.std.specs.Prelude.{◌≡◌, not, position};
ghost use Rattle.number.specs.Trim.{white, leading, kept, trimmed, end_trimmed, span_of};

// Whether trim leaves the byte.
#[tactic(auto, unfolding(crate::specs::Trim::white))]
fn stays(b: u8) -> bool
    ensures { result ≡ not (white b) }
{
    b != 32 && (b < 9 || 13 < b)
}

// Where the first byte that stays is.
fn first_left(text: &[u8]) -> Option<usize>
    ensures { result ≡ position (λ b. not (white b)) text.now }
{
    text.iter().position(|b| stays(*b))
}

// How many bytes trim takes off the front.
pub fn leading_white(text: &[u8]) -> usize
    ensures { result ≡ leading text.now }
{
    first_left(text).unwrap_or(text.len())
}

// How many bytes are left once trim has been at the end.
pub fn kept_length(text: &[u8]) -> usize
    ensures { result ≡ kept text.now }
{
    match text.iter().rposition(|b| stays(*b)) {
        Some(last) => last + 1,
        None => 0,
    }
}

// The text without what trim takes off its end.
pub fn trim_end(text: &[u8]) -> &[u8]
    ensures { result.now ≡ end_trimmed text.now }
{
    let n = kept_length(text);
    &text[..n]
}

// The text without what trim takes off its two ends.
pub fn trim(text: &[u8]) -> &[u8]
    ensures { result.now ≡ trimmed text.now }
{
    let i = leading_white(text);
    trim_end(&text[i..])
}

// Where a trimmed text lies in the text. An empty one has place 0 and length 0, as document 01 has it, and is no None.
#[derive(Clone, Copy)]
pub struct Span {
    pub place: usize,
    pub length: usize,
}

// Where the text lies once it is trimmed, 0 and 0 if nothing is left.
#[inline(always)]
pub fn read_text(text: &[u8]) -> Span
    ensures { result ≡ span_of text.now }
{
    let place = leading_white(text);
    let length = kept_length(&text[place..]);
    if length == 0 {
        return Span {
            place: 0,
            length: 0,
        };
    }
    Span { place, length }
}
