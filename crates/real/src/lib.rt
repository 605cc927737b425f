// The doubles of written numbers: one division by a power of ten, and the sign put on. A power is multiplied out
// as a whole number and converted once. Those of p up to 9 are exact as doubles, so the quotient is rounded once.
#![tactic(auto)]

ghost use Rattle.std.specs.Prelude.{◌≡◌, ◌≤◌, ◌<◌, ◌^◌, pos, nat_abs};
ghost use Rattle.std.specs.Float.{binary64};
ghost use Rattle.std.specs.Float.Ieee.{of_int};
ghost use Rattle.real.specs.Double.{double_of};
ghost use Rattle.real.specs.Real as specs;

pub mod wide;

use number::decimal::{Decimal, read_decimal};
use number::whole::read_signed;
use number::word::{MINUS, NONE, eight, read_word, six};

// A double, and how many digits stood behind the point. An integer has none there.
#[derive(Clone, Copy)]
pub struct Real {
    pub value: f64,
    pub places: u8,
}

// 10^p as a whole number: one, p times multiplied by ten.
fn ten_to(p: usize) -> u64
    requires { p ≤ 11 }
    ensures { result ≡ 10 ^ p }
{
    let mut n = 1;
    for _ in 0..p {
        n *= 10;
    }
    n
}

// 10^p as a double.
pub(crate) fn converted(p: usize) -> f64
    requires { p ≤ 11 }
    ensures { result ≡ of_int binary64 (pos (10 ^ p)) }
{
    (ten_to(p) as i64) as f64
}

// The same. Most reals have three places or two: where the number is known beforehand, the compiler multiplies it out.
fn power(p: usize) -> f64
    requires { p ≤ 9 }
    ensures { result ≡ of_int binary64 (pos (10 ^ p)) }
{
    if p == 3 {
        return converted(3);
    }
    if p == 2 {
        return converted(2);
    }
    converted(p)
}

// M over 10^p, with its sign, which goes with the divisor: whether a coordinate has a minus can't be guessed, and of two constants one is
// taken without a guess. M goes by way of a signed integer, which a machine makes a double of in one step.
fn double(decimal: Decimal) -> f64
    requires { specs.Few decimal }
    ensures { result ≡ double_of decimal.minus decimal.digits decimal.places }
{
    let whole = (decimal.digits as i64) as f64;
    let over = power(decimal.places);
    if decimal.minus {
        return whole / -over;
    }
    whole / over
}

// The double of a plain decimal, and its places.
fn real_from(decimal: Decimal) -> Real
    requires { specs.Few decimal }
    ensures { result ≡ specs.real_from decimal }
{
    Real {
        value: double(decimal),
        places: decimal.places as u8,
    }
}

// The double of what was read of a word with so many digits behind the point, if anything was. Where they are fewer than three, zeros stood
// behind them in the word.
pub fn coded<const PLACES: usize>(code: u64) -> Option<Real>
    ensures { result ≡ specs.coded_of PLACES code }
{
    if code == NONE || 3 < PLACES {
        return None;
    }
    let front = code % 65536 * 10u64.pow(PLACES as u32);
    let behind = code / 0x1_0000_0000 % 65536 / 10u64.pow((3 - PLACES) as u32);
    Some(real_from(Decimal {
        minus: MINUS <= code,
        digits: front + behind,
        places: PLACES,
    }))
}

// The double of a text whose point stands at a known place. Of any other text nothing is said.
fn quick_real(text: &[u8]) -> Option<Real>
    ensures { specs.SaysReal text.now result }
{
    if text.len() == 8 {
        return coded::<3>(read_word(eight(text)));
    }
    if text.len() == 6 {
        return coded::<2>(read_word(six(text)));
    }
    None
}

pub fn read_real(text: &[u8]) -> Option<Real>
    ensures { result ≡ specs.real_of text.now }
{
    if let Some(real) = quick_real(text) {
        return Some(real);
    }
    let decimal = read_decimal(text)?;
    Some(real_from(decimal))
}

// An integer made a double and divided by that of 10^4.
fn ten_thousandth(n: i64) -> f64
    requires { nat_abs n < 10 ^ 10 }
    ensures { result ≡ specs.ten_thousandth n }
{
    (n as f64) / power(4)
}

// An integer of up to seven columns, in ten-thousandths: more columns could say a number that no double holds.
pub fn read_ten_thousandths(text: &[u8]) -> Option<f64>
    ensures { result ≡ specs.ten_thousandths_of text.now }
{
    if 7 < text.len() {
        return None;
    }
    let n = read_signed(text)?;
    Some(ten_thousandth(n))
}
