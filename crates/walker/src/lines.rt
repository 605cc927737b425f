// A line ends at LF, a CR just before LF is dropped, and an empty last piece is no line.
ghost use Rattle.std.specs.Prelude.{false, ◌≡◌, ◌+◌, ◌<◌, ◌≤◌, ◌==◌, length, drop, position};
ghost use Rattle.walker.specs.Lines.{before_lf, has_lf, Full, line_length, step_at, part_of};

use crate::Line;

// Whether some bytes hold an LF. There is no way out of the loop before its end, so that many bytes are compared at once.
fn has_lf(bytes: &[u8]) -> bool
    ensures { result ≡ has_lf false bytes.now }
{
    let mut found = false;
    for b in bytes {
        if *b == 10 {
            found = true;
        }
    }
    found
}

// How many bytes at the front are passed in whole blocks of sixteen that hold no LF.
fn free_blocks(rest: &[u8]) -> usize
    ensures within { result ≤ length rest.now }
    ensures free { result + before_lf (drop result rest.now) ≡ before_lf rest.now }
{
    let mut n = 0;
    for block in rest.chunks_exact(16) {
        if has_lf(block) {
            return n;
        }
        n += 16;
    }
    n
}

// Where the first LF stands, byte by byte.
fn first_lf(bytes: &[u8]) -> Option<usize>
    ensures { result ≡ position (λ b. b == 10) bytes.now }
{
    bytes.iter().position(|b| *b == 10)
}

// Whether the line at the front has 80 bytes, as most lines have. Its LF is looked at first, so that other lines lose little by it; and as the
// blocks before it have known sizes, they are compared without a loop.
fn is_full(rest: &[u8]) -> bool
    ensures { Full rest.now result }
{
    if rest.len() <= 80 {
        return false;
    }
    if rest[80] != 10 {
        return false;
    }
    if has_lf(&rest[..64]) {
        return false;
    }
    !has_lf(&rest[64..80])
}

// How many bytes stand before the first LF, or all of them if there is none. A line of 80 bytes is told at once, and other bytes are passed by blocks.
fn find_lf(rest: &[u8]) -> usize
    ensures { result ≡ before_lf rest.now }
{
    if is_full(rest) {
        return 80;
    }
    let free = free_blocks(rest);
    match first_lf(&rest[free..]) {
        Some(more) => free + more,
        None => rest.len(),
    }
}

// How many bytes the line at the front has, by the LF that ends it: those before the LF, without a CR just before it.
fn without_cr(rest: &[u8], lf: usize) -> usize
    requires { (lf ≡ before_lf rest.now) × (lf < length rest.now) }
    ensures { result ≡ line_length rest.now }
{
    if lf == 0 {
        return lf;
    }
    if rest[lf - 1] == 13 {
        return lf - 1;
    }
    lf
}

// The line at an offset, or None at the end.
pub fn line_at(file: &[u8], at: usize) -> Option<Line>
    ensures { result ≡ step_at file.now at }
{
    if file.len() <= at {
        return None;
    }
    let rest = &file[at..];
    let lf = find_lf(rest);
    if rest.len() <= lf {
        return Some(Line {
            start: at,
            end: file.len(),
            next: file.len(),
        });
    }
    Some(Line {
        start: at,
        end: at + without_cr(rest, lf),
        next: at + lf + 1,
    })
}

// The bytes of the file from `start` up to `end`, or none if they don't lie in it.
pub fn line<'a>(file: &'a [u8], start: usize, end: usize) -> &'a [u8]
    ensures { result.now ≡ part_of file.now start end }
{
    file.get(start..end).unwrap_or(&[])
}
