// What is held over of an unfinished line, beside the lent bytes that keep it.
ghost use Rattle.std.specs.Prelude.{◌≡◌, ◌≤◌, length, drop};
ghost use Rattle.pdbmend.specs.Held as specs;

// How many bytes are kept, whether bytes before them went on already because the line has too many, and the line's number.
#[derive(Clone, Copy)]
pub struct Held {
    pub n: usize,
    pub over: bool,
    pub number: usize,
}

impl Held {
    // Nothing of a line that has a number.
    pub fn none(number: usize) -> Self
        ensures { result ≡ specs.none number }
    {
        Held {
            n: 0,
            over: false,
            number,
        }
    }
}

// How many bytes are kept at an offset of a part.
#[derive(Clone, Copy)]
pub struct Absorbed {
    pub n: usize,
    pub at: usize,
}

// Keeps the bytes of a part from an offset up to an LF, to the part's end, or until there is no more room.
pub fn absorb(n: usize, kept: &mut [u8; 1026], part: &[u8], at: usize) -> Absorbed
    requires { n ≤ 1026 }
    ensures { specs.Absorbs n kept.old (drop at part.now) at kept.new result }
{
    let mut k = n;
    let mut i = at;
    while i < part.len() {
        if part[i] == 10 {
            return Absorbed { n: k, at: i };
        }
        if 1026 <= k {
            return Absorbed { n: k, at: i };
        }
        kept[k] = part[i];
        k += 1;
        i += 1;
    }
    Absorbed { n: k, at: i }
}

// How many bytes of the first n are the line's, where an LF follows: all but a CR at their end.
pub fn line_size(kept: &[u8], n: usize) -> usize
    requires { n ≤ length kept.now }
    ensures { result ≡ specs.size_in kept.now n }
{
    if n == 0 {
        return 0;
    }
    if kept[n - 1] == 13 {
        return n - 1;
    }
    n
}
