// Lines of an input that comes in parts: what is held over of an unfinished one, and where the whole ones end. What is done with the lines is
// left to others.
#![tactic(auto)]

ghost use Rattle.std.specs.Prelude.{◌≡◌, ◌+◌, drop};
ghost use Rattle.carry.specs.Whole as specs;

pub mod held;
pub mod keep;

// The offset behind the last LF of a part from an offset on, or that offset if there is none.
pub fn behind_last(part: &[u8], at: usize) -> usize
    ensures { result ≡ at + specs.whole_length (drop at part.now) }
{
    for i in (at..part.len()).rev() {
        if part[i] == 10 {
            return i + 1;
        }
    }
    at
}
