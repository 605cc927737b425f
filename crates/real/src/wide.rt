// The doubles of numbers with an exponent. M and a power of ten up to 10^22 are exact as doubles, so one division or one multiplication rounds once.
ghost use Rattle.std.specs.Prelude.{◌≡◌, ◌≤◌, ◌<◌, ◌^◌, pos};
ghost use Rattle.std.specs.Float.{binary64};
ghost use Rattle.std.specs.Float.Ieee.{of_int};
ghost use Rattle.number.specs.Wide.{marked_of};
ghost use Rattle.real.specs.Real.{Few};
ghost use Rattle.real.specs.Wide as specs;

use crate::{Real, converted};
use number::decimal::Decimal;
use number::wide::{Wide, read_marked};

// 10^k as a double: beyond 10^11 the product of two, which is exact.
fn ten(k: usize) -> f64
    requires { k ≤ 22 }
    ensures { result ≡ of_int binary64 (pos (10 ^ k)) }
{
    if k <= 11 {
        return converted(k);
    }
    converted(11) * converted(k - 11)
}

// M over 10^k, with its sign.
fn over(decimal: Decimal, k: usize) -> f64
    requires few { Few decimal }
    requires k_bound { k ≤ 22 }
    ensures { result ≡ specs.nearest_to decimal.minus decimal.digits 0 k }
{
    let quotient = (decimal.digits as f64) / ten(k);
    if decimal.minus {
        return -quotient;
    }
    quotient
}

// M times 10^k, with its sign.
fn times(decimal: Decimal, k: usize) -> f64
    requires few { Few decimal }
    requires k_bound { k ≤ 22 }
    ensures { result ≡ specs.nearest_to decimal.minus decimal.digits k 0 }
{
    let product = (decimal.digits as f64) * ten(k);
    if decimal.minus {
        return -product;
    }
    product
}

// The double of a number with an exponent, if that is in reach. An exponent over 31 is not, whatever the places are, unless M is 0.
fn wide_double(wide: Wide) -> Option<f64>
    requires { Few wide.decimal }
    ensures { result ≡ specs.wide_double wide }
{
    let decimal = wide.decimal;
    if decimal.digits == 0 {
        return Some(over(decimal, 0));
    }
    if 31 < wide.exponent {
        return None;
    }
    let p = decimal.places;
    let x = wide.exponent as usize;
    if wide.lower {
        if 22 < p + x {
            return None;
        }
        return Some(over(decimal, p + x));
    }
    if x <= p {
        return Some(over(decimal, p - x));
    }
    if 22 < x - p {
        return None;
    }
    Some(times(decimal, x - p))
}

// What a text says with an exponent. Of a plain decimal nothing is said: who has the option on reads it as one first.
pub fn read_exponent(text: &[u8]) -> Option<Real>
    ensures { result ≡ specs.wide_real (marked_of text.now) }
{
    let wide = read_marked(text)?;
    let value = wide_double(wide)?;
    Some(Real {
        value,
        places: wide.decimal.places as u8,
    })
}
