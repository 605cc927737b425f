// The list of changes, a word each, in lent words. A change past the end of the words is counted and not held.
ghost use Rattle.std.specs.Prelude.{◌≡◌, cond, ◌+◌, ◌≤◌, ltb, length};
ghost use Rattle.mend.specs.Changes as specs;
ghost use Rattle.mend.specs.Mend.{padding};

// One change, of the n bytes that end before a place; of no bytes there is none.
fn put_change(changes: &mut [u64], count: usize, what: u64, at: usize, n: usize) -> usize
    requires { (count ≤ 1024) × (what ≤ 2) × (at ≤ 1024) × (n ≤ at) }
    ensures { specs.notes changes.new result ≡ specs.note_by (specs.notes changes.old count) what at n }
{
    if n == 0 {
        return count;
    }
    if count < changes.len() {
        changes[count] = what * 4294967296 + n as u64 * 65536 + (at - n) as u64;
        return count + 1;
    }
    count + 1
}

// A run of bytes of 128 or more: how many changes were noted before it, and how many bytes it has.
#[derive(Clone, Copy)]
struct Run {
    count: usize,
    n: usize,
}

impl Run {
    // One byte further: a byte below 128 ends the run before it.
    fn step(self, changes: &mut [u64], at: usize, b: u8) -> Run
        requires { (self.count ≤ at) × (self.n ≤ at) × (at ≤ 1024) }
        ensures { (result.n ≡ cond (ltb b 128) 0 (self.n + 1)) × (specs.notes changes.new result.count ≡ specs.stepped (specs.notes changes.old self.count) at self.n b) × (result.count ≤ self.count + 1) }
    {
        let Run { count, n } = self;
        if b < 128 {
            let next = put_change(changes, count, 1, at, n);
            return Run { count: next, n: 0 };
        }
        Run { count, n: n + 1 }
    }
}

// The runs of bytes of 128 or more.
fn note_runs(line: &[u8], changes: &mut [u64]) -> usize
    requires { length line.now ≤ 1024 }
    ensures { specs.notes changes.new result ≡ specs.note_all (specs.notes changes.old 0) (specs.runs 0 0 line.now) }
{
    let mut run = Run { count: 0, n: 0 };
    for (i, b) in line.iter().enumerate() {
        run = run.step(changes, i, *b);
    }
    put_change(changes, run.count, 1, line.len(), run.n)
}

// All changes of a line, with so many blanks behind it; how many they are.
pub fn note_changes(line: &[u8], changes: &mut [u64], pad: usize) -> usize
    requires { (pad ≡ padding line.now) × (length line.now ≤ 1024) }
    ensures { specs.notes changes.new result ≡ specs.note_all (specs.notes changes.old 0) (specs.changes_of line.now) }
{
    let count = note_runs(line, changes);
    put_change(changes, count, 2, line.len() + pad, pad)
}
