// The lines of a lent file. A walker keeps the file and a position in it; the functions over it are thin, and leave the work to
// `lines::line_at`, which takes the file and the position as they are. Callers that hold no walker use `step`.
#![tactic(auto)]

ghost use Rattle.std.specs.Prelude.{◌≡◌};
ghost use Rattle.walker.specs.Lines.{number_behind, step_at};

pub mod lines;

// A line of a file: it goes from `start` up to `end`, and what follows it begins at `next`.
#[derive(Clone, Copy)]
pub struct Line {
    pub start: usize,
    pub end: usize,
    pub next: usize,
}

// A file and the offset of a line in it, or of the end.
#[derive(Clone, Copy)]
pub struct Walker<'a> {
    pub file: &'a [u8],
    pub at: usize,
}

// A walker at the first line.
pub fn new<'a>(file: &'a [u8]) -> Walker<'a>
    ensures { (result.file ≡ file.entry) × (result.at ≡ 0) }
{
    Walker { file, at: 0 }
}

// The line that the walker stands at, or None at the end.
pub fn next<'a>(walker: Walker<'a>) -> Option<Line>
    ensures { result ≡ step_at walker.entry.file.now walker.entry.at }
{
    lines::line_at(walker.file, walker.at)
}

// The walker at another offset.
pub fn moved<'a>(walker: Walker<'a>, at: usize) -> Walker<'a>
    ensures { (result.file ≡ walker.entry.file) × (result.at ≡ at) }
{
    Walker {
        file: walker.file,
        at,
    }
}

// The line that a walker of the file finds at an offset, or None at the end.
pub fn step(file: &[u8], at: usize) -> Option<Line>
    ensures { result ≡ step_at file.now at }
{
    next(moved(new(file), at))
}

// The number of the line behind a line. No file has so many lines that there is none.
pub fn following(n: usize) -> usize
    ensures { result ≡ number_behind n }
{
    n.saturating_add(1)
}
