// Putting bytes, numbers and escaped text into lent bytes. Each function takes the lent bytes and the place of the
// next byte, and hands back the place behind what it put. It asks nothing of its caller: a byte past the end is
// counted and not written, and the count stops at 2^64-1.
// Bytes and place stay two arguments: a struct with the `&mut` in it would need a second clause in each contract, that
// it still borrows the same bytes.
#![tactic(auto)]

ghost use Rattle.std.specs.Prelude.{◌≡◌, [], ◌∷◌, ◌<◌};
ghost use Rattle.std.specs.Float.{binary64};
ghost use Rattle.std.specs.Float.Ieee.{to_bits};
ghost use Rattle.page.specs.Numerals as numerals;
ghost use Rattle.page.specs.Page.{page, put};

// One byte: stored where the lent bytes reach, and else only counted. On the bytes the count can't stop, and isn't tested for it.
pub fn put_byte(out: &mut [u8], at: usize, b: u8) -> usize
    ensures { page out.new result ≡ put (page out.old at) (b ∷ []) }
{
    if at < out.len() {
        out[at] = b;
        return at + 1;
    }
    at.saturating_add(1)
}

// A text as it stands.
pub fn put_bytes(out: &mut [u8], at: usize, text: &[u8]) -> usize
    ensures { page out.new result ≡ put (page out.old at) text.now }
{
    let mut next = at;
    for b in text {
        next = put_byte(out, next, *b);
    }
    next
}

// A hex digit in upper case.
fn hex_digit(d: u8) -> u8
    requires { d < 16 }
    ensures { result ≡ numerals.hex_digit d }
{
    if d < 10 {
        return b'0' + d;
    }
    b'A' - 10 + d
}

// Whether a byte stands as itself.
#[tactic(auto, unfolding(crate::specs::Numerals::plain))]
fn is_plain(b: u8) -> bool
    ensures { result ≡ numerals.plain b }
{
    b' ' <= b && b <= b'~' && b != b'%'
}

// One byte, as itself or as `%` and two hex digits.
fn put_shown(out: &mut [u8], at: usize, b: u8) -> usize
    ensures { page out.new result ≡ put (page out.old at) (numerals.shown b) }
{
    if is_plain(b) {
        return put_byte(out, at, b);
    }
    let high = put_byte(out, at, b'%');
    let low = put_byte(out, high, hex_digit(b / 16));
    put_byte(out, low, hex_digit(b % 16))
}

// A text that may hold any byte, each put as bytes from 32 to 126.
pub fn put_escaped(out: &mut [u8], at: usize, text: &[u8]) -> usize
    ensures { page out.new result ≡ put (page out.old at) (numerals.escaped text.now) }
{
    let mut next = at;
    for b in text {
        next = put_shown(out, next, *b);
    }
    next
}

// A number in decimal. Its digits are found from the last one on, and twenty bytes hold them.
pub fn put_unsigned(out: &mut [u8], at: usize, n: u64) -> usize
    ensures { page out.new result ≡ put (page out.old at) (numerals.decimal n) }
{
    let mut text = [0u8; 20];
    // The place counts back by hand: where the text begins is known only once the last digit is found.
    let mut i = 20;
    let mut rest = n;
    while 9 < rest {
        i -= 1;
        text[i] = b'0' + (rest % 10) as u8;
        rest /= 10;
    }
    i -= 1;
    text[i] = b'0' + rest as u8;
    put_bytes(out, at, &text[i..])
}

// A number in decimal, behind a `-` if it is below zero.
pub fn put_signed(out: &mut [u8], at: usize, n: i64) -> usize
    ensures { page out.new result ≡ put (page out.old at) (numerals.signed_decimal n) }
{
    let distance = n.unsigned_abs();
    if n < 0 {
        let next = put_byte(out, at, b'-');
        return put_unsigned(out, next, distance);
    }
    put_unsigned(out, at, distance)
}

// A double's bits. A NaN's own aren't known, and no reader gives one: one NaN's pattern stands for it.
pub fn bits_of(x: f64) -> u64
    ensures { result ≡ to_bits binary64 x }
{
    if x.is_nan() {
        return 0x7FF8_0000_0000_0000;
    }
    x.to_bits()
}

// The sixteen hex digits of 64 bits.
pub fn put_hex(out: &mut [u8], at: usize, bits: u64) -> usize
    ensures { page out.new result ≡ put (page out.old at) (numerals.hex16 bits) }
{
    let mut text = [0u8; 16];
    let mut rest = bits;
    for i in (0..16).rev() {
        text[i] = hex_digit((rest % 16) as u8);
        rest /= 16;
    }
    put_bytes(out, at, &text)
}
