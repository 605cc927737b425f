// Fills a space with what comes from an input.
#![tactic(auto)]

ghost use Rattle.std.specs.Prelude.{◌≤◌, length};

use std::io::Read;

// Reads until the space is full, the input ends or a read fails, and says how many bytes it put at the start of the space.
pub fn read_full(input: &mut impl Read, space: &mut [u8]) -> usize
    ensures { result ≤ length space.new }
{
    let mut done = 0;
    // No iterator counts this: each read says how far it comes.
    while done < space.len() {
        let Ok(n) = input.read(&mut space[done..]) else {
            return done;
        };
        if n == 0 {
            return done;
        }
        done += n;
    }
    done
}
