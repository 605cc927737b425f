// The text of a decimal, and a text at the right of its columns.
ghost use Rattle.std.specs.Prelude.{◌≡◌, [], ◌≤◌};
ghost use Rattle.cell.specs.Text as specs;
ghost use Rattle.page.specs.Page.{page, put};

use crate::places::Rounded;
use page::{put_byte, put_bytes, put_unsigned};

pub fn put_blanks(out: &mut [u8], at: usize, n: usize) -> usize
    ensures { page out.new result ≡ put (page out.old at) (specs.blanks n) }
{
    let mut next = at;
    for i in 0..n {
        next = put_byte(out, next, 32);
    }
    next
}

// A text at the right of its columns. One that is too long for them goes as it is.
pub(crate) fn put_right(out: &mut [u8], at: usize, width: usize, bytes: &[u8]) -> usize
    ensures { page out.new result ≡ put (page out.old at) (specs.right width bytes.now) }
{
    if bytes.len() < width {
        let next = put_blanks(out, at, width - bytes.len());
        return put_bytes(out, next, bytes);
    }
    put_bytes(out, at, bytes)
}

// The last k digits of a number.
fn put_last(out: &mut [u8], at: usize, k: usize, n: u64) -> usize
    requires { k ≤ 9 }
    ensures { page out.new result ≡ put (page out.old at) (specs.last_digits k n []) }
{
    let mut bytes = [0u8; 9];
    let mut rest = n;
    for i in (9 - k..9).rev() {
        bytes[i] = 48 + (rest % 10) as u8;
        rest /= 10;
    }
    put_bytes(out, at, &bytes[9 - k..])
}

// N over 10^q, without a point if q is 0.
fn put_pointed(out: &mut [u8], at: usize, q: usize, n: u64) -> usize
    requires { q ≤ 9 }
    ensures { page out.new result ≡ put (page out.old at) (specs.pointed q n) }
{
    if q == 0 {
        return put_unsigned(out, at, n);
    }
    let point = put_unsigned(out, at, n / 10u64.pow(q as u32));
    let last = put_byte(out, point, 46);
    put_last(out, last, q, n)
}

// The same behind a minus, if it has one.
pub(crate) fn put_fixed(out: &mut [u8], at: usize, q: usize, rounded: Rounded) -> usize
    requires { q ≤ 9 }
    ensures { page out.new result ≡ put (page out.old at) (specs.fixed q rounded.minus rounded.digits) }
{
    if rounded.minus {
        let next = put_byte(out, at, 45);
        return put_pointed(out, next, q, rounded.digits);
    }
    put_pointed(out, at, q, rounded.digits)
}
