// A line as it is shown to people, byte under byte.
ghost use Rattle.std.specs.Prelude.{◌≡◌, cond, ltb, take, replicate};
ghost use Rattle.line.specs.Bytes.{bytes};
ghost use Rattle.page.specs.Page.{page, put};
ghost use Rattle.account.specs.Account as specs;

use page::{put_byte, put_bytes, put_unsigned};

// A number between two texts.
pub(crate) fn put_numbered(
    out: &mut [u8],
    at: usize,
    before: &[u8],
    n: usize,
    after: &[u8],
) -> usize
    ensures { page out.new result ≡ put (page out.old at) (specs.numbered before.now n after.now) }
{
    let number = put_bytes(out, at, before);
    let end = put_unsigned(out, number, n as u64);
    put_bytes(out, end, after)
}

// A byte, or the mark of one that can't be shown.
fn mark(b: u8) -> u8
    ensures { result ≡ specs.mark b }
{
    match b {
        32..=126 => b,
        _ => 63,
    }
}

// A text, each byte as one.
pub(crate) fn put_marked(out: &mut [u8], at: usize, text: &[u8]) -> usize
    ensures { page out.new result ≡ put (page out.old at) (specs.marked text.now) }
{
    let mut next = at;
    for b in text {
        next = put_byte(out, next, mark(*b));
    }
    next
}

// So many of one byte.
pub(crate) fn put_many(out: &mut [u8], at: usize, n: usize, b: u8) -> usize
    ensures { page out.new result ≡ put (page out.old at) (replicate n b) }
{
    let mut next = at;
    for _ in 0..n {
        next = put_byte(out, next, b);
    }
    next
}

// The bytes that are shown of a text.
fn front(text: &[u8]) -> &[u8]
    ensures { result.now ≡ take 120 text.now }
{
    &text[..text.len().min(120)]
}

// The end of a row that shows a text of so many bytes.
fn put_end(out: &mut [u8], at: usize, size: usize) -> usize
    ensures { page out.new result ≡ put (page out.old at) (cond (ltb 120 size) (bytes " ..\n") (bytes "\n")) }
{
    if 120 < size {
        return put_bytes(out, at, b" ..\n");
    }
    put_bytes(out, at, b"\n")
}

// A line, or what follows a place of it.
pub(crate) fn put_line(out: &mut [u8], at: usize, text: &[u8]) -> usize
    ensures { page out.new result ≡ put (page out.old at) (specs.shown_line text.now) }
{
    let start = put_bytes(out, at, b"    ");
    let end = put_marked(out, start, front(text));
    put_end(out, end, text.len())
}
