// One read. A pipe or a terminal hands its bytes over in parts.
ghost use Rattle.std.specs.Prelude.{◌≤◌, length, IfOk};

use std::io::{Error, ErrorKind, Read, Result};

// How many bytes were read, none at the end of the input; or why they can't be read. A read that a signal interrupts is tried again: a proved loop has
// to end, so there are as many turns as no run uses up.
pub fn read_some<S: Read>(source: &mut S, space: &mut [u8]) -> Result<usize>
    ensures { IfOk result (λ n. n ≤ length space.old) }
{
    for _ in 0..u64::MAX {
        match source.read(space) {
            Err(why) if why.kind() == ErrorKind::Interrupted => {}
            answer => return answer,
        }
    }
    Err(Error::from(ErrorKind::Interrupted))
}
