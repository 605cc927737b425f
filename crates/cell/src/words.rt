// A text, a charge, a flag or a row in so many columns of a line that is written. What doesn't fit puts blanks and is told.
ghost use Rattle.std.specs.Prelude.{◌≡◌, [], ◌∷◌, ◌++◌, ◌≤◌, drop};
ghost use Rattle.cell.specs.Cell as specs;
ghost use Rattle.cell.specs.Words as words;
ghost use Rattle.page.specs.Numerals.{signed_decimal};
ghost use Rattle.page.specs.Page.{page, put};

use crate::text::{put_blanks, put_right};
use crate::{Put, put_none, put_text};
use page::{put_byte, put_bytes, put_signed};

// Whether every byte is from 32 to 126.
fn is_printable(bytes: &[u8]) -> bool
    ensures { result ≡ words.printable bytes.now }
{
    bytes.iter().all(|b| 32 <= *b && *b <= 126)
}

// A text at the left of its columns. One that is too long for them goes as it is.
fn put_left(out: &mut [u8], at: usize, width: usize, bytes: &[u8]) -> usize
    ensures { page out.new result ≡ put (page out.old at) (words.left width bytes.now) }
{
    let next = put_bytes(out, at, bytes);
    if bytes.len() < width {
        return put_blanks(out, next, width - bytes.len());
    }
    next
}

// A text at its side.
pub fn put_words(out: &mut [u8], at: usize, width: usize, left: bool, bytes: &[u8]) -> Put
    ensures { specs.Puts (page out.old at) (words.words_bytes left width bytes.now) (words.words_fit width bytes.now) out.new result }
{
    if width < bytes.len() {
        return put_none(out, at, width);
    }
    if !is_printable(bytes) {
        return put_none(out, at, width);
    }
    if left {
        return Put {
            next: put_left(out, at, width, bytes),
            fits: true,
        };
    }
    Put {
        next: put_right(out, at, width, bytes),
        fits: true,
    }
}

// A text that fills its columns.
pub fn put_lent(out: &mut [u8], at: usize, width: usize, bytes: &[u8]) -> Put
    ensures { specs.Puts (page out.old at) (words.lent_bytes width bytes.now) (words.lent_fits width bytes.now) out.new result }
{
    if bytes.len() != width {
        return put_none(out, at, width);
    }
    if !is_printable(bytes) {
        return put_none(out, at, width);
    }
    Put {
        next: put_bytes(out, at, bytes),
        fits: true,
    }
}

// A number with a mark behind it, and without its first byte if that is skipped: a minus, which the mark is to stand for.
fn put_marked(out: &mut [u8], at: usize, width: usize, n: i64, skip: usize, mark: u8) -> Put
    requires { skip ≤ 1 }
    ensures { specs.Puts (page out.old at) (specs.texted width (drop skip (signed_decimal n ++ mark ∷ []))) (specs.fitting width (drop skip (signed_decimal n ++ mark ∷ []))) out.new result }
{
    let mut bytes = [0u8; 21];
    let end = put_signed(&mut bytes, 0, n);
    let length = put_byte(&mut bytes, end, mark);
    put_text(out, at, width, &bytes[skip..length])
}

// A charge: its digits, then its sign.
pub fn put_charge(out: &mut [u8], at: usize, width: usize, n: i64) -> Put
    ensures { specs.Puts (page out.old at) (specs.texted width (words.charge_text n)) (specs.fitting width (words.charge_text n)) out.new result }
{
    if n < 0 {
        return put_marked(out, at, width, n, 1, 45);
    }
    if 0 < n {
        return put_marked(out, at, width, n, 0, 43);
    }
    put_text(out, at, width, &[])
}

// Whether something is given: `1` or a blank.
pub fn put_flag(out: &mut [u8], at: usize, width: usize, flag: bool) -> Put
    ensures { specs.Puts (page out.old at) (specs.texted width (words.flag_text flag)) (specs.fitting width (words.flag_text flag)) out.new result }
{
    if flag {
        return put_text(out, at, width, &[49]);
    }
    put_text(out, at, width, &[])
}

// A row, counted from 0, by its digit.
pub fn put_row(out: &mut [u8], at: usize, width: usize, row: usize) -> Put
    ensures { specs.Puts (page out.old at) (words.row_bytes width row) (words.row_fits_of width row) out.new result }
{
    if row < 3 {
        let digit = [49 + row as u8];
        return put_text(out, at, width, &digit);
    }
    put_none(out, at, width)
}
