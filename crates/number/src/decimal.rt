// Plain decimals: an optional sign, digits, an optional point, digits, with at least one digit, in at most ten
// bytes. Nothing is a double here: the written number is its sign, M and p, M over 10^p.
ghost use Rattle.std.specs.Prelude.{◌≡◌, ◌≤◌, length};
ghost use Rattle.number.specs.Decimal.{plain_of, decimal_of};

use crate::trim::trim;
use crate::whole::{after_sign, begins, read_run};

// A written number: whether it has a minus, M, and p.
// The bounds of M and p are no ghost fields: `plain_of` speaks of texts of any length, whose numbers have none.
#[derive(Clone, Copy)]
pub struct Decimal {
    pub minus: bool,
    pub digits: u64,
    pub places: usize,
}

// Digits, an optional point, digits, with at least one digit. Ten digits keep below 2^64, so the digits at the
// front end at the first byte that is none.
pub(crate) fn read_plain(minus: bool, text: &[u8]) -> Option<Decimal>
    requires { length text.now ≤ 10 }
    ensures { result ≡ plain_of minus text.now }
{
    let first = read_run(0, text);
    let i = first.count;
    if text.len() <= i {
        if i == 0 {
            return None;
        }
        return Some(Decimal {
            minus,
            digits: first.value,
            places: 0,
        });
    }
    if text[i] != 46 {
        return None;
    }
    if text.len() < 2 {
        return None;
    }
    let rest = &text[i + 1..];
    let second = read_run(first.value, rest);
    if second.count < rest.len() {
        return None;
    }
    Some(Decimal {
        minus,
        digits: second.value,
        places: rest.len(),
    })
}

pub fn read_decimal(text: &[u8]) -> Option<Decimal>
    ensures { result ≡ decimal_of text.now }
{
    let t = trim(text);
    if 10 < t.len() {
        return None;
    }
    read_plain(begins(45, t), after_sign(t))
}
