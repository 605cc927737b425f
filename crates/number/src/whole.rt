// Whole numbers: U, an optional `+` and one or more digits, at most 2^64-1; I, the same with `+` or `-`, within
// 64 bits. Leading zeros may be as many as a line holds, so digits are read for as long as the number fits and
// are never counted.
ghost use Rattle.std.specs.Prelude.{◌≡◌, true, false};
ghost use Rattle.number.specs.Whole as specs;

use crate::trim::trim;

// Digits at the front of a text: the number once they are read, and how many there are.
#[derive(Clone, Copy)]
pub struct Run {
    pub value: u64,
    pub count: usize,
}

// The digits at the front, behind those that said `before`, that keep the number below 2^64.
pub fn read_run(before: u64, text: &[u8]) -> Run
    ensures { result ≡ specs.run_of before 0 text.now }
{
    let mut value = before;
    for (i, b) in text.iter().enumerate() {
        if *b < 48 || 57 < *b {
            return Run { value, count: i };
        }
        let d = (*b - 48) as u64;
        if (18446744073709551615 - d) / 10 < value {
            return Run { value, count: i };
        }
        value = value * 10 + d;
    }
    Run {
        value,
        count: text.len(),
    }
}

// One or more digits and nothing else.
pub(crate) fn read_digits(text: &[u8]) -> Option<u64>
    ensures { result ≡ specs.digits_of text.now }
{
    if text.len() == 0 {
        return None;
    }
    let got = read_run(0, text);
    if got.count < text.len() {
        return None;
    }
    Some(got.value)
}

// Whether a text begins with the byte.
pub fn begins(byte: u8, text: &[u8]) -> bool
    ensures { result ≡ specs.begins byte text.now }
{
    text.starts_with(&[byte])
}

// The text behind its plus, if it has one.
fn after_plus(text: &[u8]) -> &[u8]
    ensures { result.now ≡ specs.after_plus text.now }
{
    text.strip_prefix(b"+").unwrap_or(text)
}

// The text behind its sign, if it has one.
pub fn after_sign(text: &[u8]) -> &[u8]
    ensures { result.now ≡ specs.after_sign text.now }
{
    if begins(43, text) || begins(45, text) {
        return &text[1..];
    }
    text
}

pub fn read_unsigned(text: &[u8]) -> Option<u64>
    ensures { result ≡ specs.unsigned_of text.now }
{
    read_digits(after_plus(trim(text)))
}

// A number behind a minus or not, within 64 bits.
fn with_sign(minus: bool, n: u64) -> Option<i64>
    ensures { result ≡ specs.signed_from minus n }
{
    if minus {
        return 0i64.checked_sub_unsigned(n);
    }
    0i64.checked_add_unsigned(n)
}

pub fn read_signed(text: &[u8]) -> Option<i64>
    ensures { result ≡ specs.signed_of text.now }
{
    let t = trim(text);
    let n = read_digits(after_sign(t))?;
    with_sign(begins(45, t), n)
}
