// A number in so many columns of a line that is written. What doesn't fit puts blanks and is told, so that every cell fills its columns.
#![tactic(auto)]

ghost use Rattle.std.specs.Prelude.{◌≤◌, ◌<◌, ◌^◌, false};
ghost use Rattle.cell.specs.Cell as specs;
ghost use Rattle.cell.specs.Places.{places_of};
ghost use Rattle.cell.specs.Text.{blanks, fixed};
ghost use Rattle.page.specs.Numerals.{decimal, signed_decimal};
ghost use Rattle.page.specs.Page.{page};

pub mod places;
pub mod text;
pub mod words;

use crate::places::{Rounded, round_to};
use crate::text::{put_blanks, put_fixed, put_right};

// The place behind what was put, and whether it fits. The place is there in both cases, so the two are no Option.
#[derive(Clone, Copy)]
pub struct Put {
    pub next: usize,
    pub fits: bool,
}

// Blanks for what doesn't fit.
fn put_none(out: &mut [u8], at: usize, width: usize) -> Put
    ensures { specs.Puts (page out.old at) (blanks width) false out.new result }
{
    Put {
        next: put_blanks(out, at, width),
        fits: false,
    }
}

// A text at the right of its columns; blanks, if it is too long for them.
fn put_text(out: &mut [u8], at: usize, width: usize, bytes: &[u8]) -> Put
    ensures { specs.Puts (page out.old at) (specs.texted width bytes.now) (specs.fitting width bytes.now) out.new result }
{
    if width < bytes.len() {
        return put_none(out, at, width);
    }
    Put {
        next: put_right(out, at, width, bytes),
        fits: true,
    }
}

pub fn put_unsigned(out: &mut [u8], at: usize, width: usize, n: u64) -> Put
    ensures { specs.Puts (page out.old at) (specs.texted width (decimal n)) (specs.fitting width (decimal n)) out.new result }
{
    let mut bytes = [0u8; 20];
    let length = page::put_unsigned(&mut bytes, 0, n);
    put_text(out, at, width, &bytes[..length])
}

pub fn put_signed(out: &mut [u8], at: usize, width: usize, n: i64) -> Put
    ensures { specs.Puts (page out.old at) (specs.texted width (signed_decimal n)) (specs.fitting width (signed_decimal n)) out.new result }
{
    let mut bytes = [0u8; 20];
    let length = page::put_signed(&mut bytes, 0, n);
    put_text(out, at, width, &bytes[..length])
}

// A sign and N over 10^q.
fn put_decimal(out: &mut [u8], at: usize, width: usize, q: usize, rounded: Rounded) -> Put
    requires q_bound { q ≤ 9 }
    requires digits_bound { rounded.digits < 10 ^ 10 }
    ensures { specs.Puts (page out.old at) (specs.texted width (fixed q rounded.minus rounded.digits)) (specs.fitting width (fixed q rounded.minus rounded.digits)) out.new result }
{
    let mut bytes = [0u8; 24];
    let length = put_fixed(&mut bytes, 0, q, rounded);
    put_text(out, at, width, &bytes[..length])
}

// A real in q places.
pub fn put_real(out: &mut [u8], at: usize, width: usize, q: usize, x: f64) -> Put
    ensures { specs.Puts (page out.old at) (specs.real_bytes width q (places_of q x)) (specs.real_fits width q (places_of q x)) out.new result }
{
    let Some(rounded) = round_to(x, q) else {
        return put_none(out, at, width);
    };
    put_decimal(out, at, width, q, rounded)
}

// One of ANISOU's six: in four places, without the point. A zero doesn't keep its sign.
pub fn put_factor(out: &mut [u8], at: usize, width: usize, x: f64) -> Put
    ensures { specs.Puts (page out.old at) (specs.factor_bytes width (places_of 4 x)) (specs.factor_fits width (places_of 4 x)) out.new result }
{
    let Some(rounded) = round_to(x, 4) else {
        return put_none(out, at, width);
    };
    if rounded.digits == 0 {
        let zero = Rounded {
            minus: false,
            digits: 0,
        };
        return put_decimal(out, at, width, 0, zero);
    }
    put_decimal(out, at, width, 0, rounded)
}
