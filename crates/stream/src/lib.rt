// What the program `pdblist` does: it reads its input in parts, as they come, and prints the reports of the lines that a part finishes before it
// waits for the next.
#![tactic(auto)]

use crate::input::read_some;
use crate::output::{print_last, print_part};
use crate::reason::fail;
use carry::held::Held;
use std::io::Read;

pub mod input;
mod output;
pub mod reason;

// More reads than any run makes: a proved loop has to end, and the numbers of the lines have to be told apart.
const MOST_READS: usize = 140737488355328;

// Lists standard input.
pub fn list_input(rt: &(impl Input + Print + Eprint)) {
    let mut source = rt.reader();
    list_from(rt, &mut source);
}

// Lists what a file has to its end, or says on standard error why it can't.
pub fn list_from<R: Print + Eprint, S: Read>(rt: &R, source: &mut S) {
    let mut kept = [0u8; 1024];
    let mut held = Held::none(1);
    let mut space = [0u8; 65536];
    for _turn in 0..MOST_READS {
        let n = match read_some(source, &mut space) {
            Ok(n) => n,
            Err(why) => {
                fail(rt, "pdblist: standard input", why);
                return;
            }
        };
        if n == 0 {
            let _ = print_last(rt, held, &kept);
            return;
        }
        let Ok((next, _)) = print_part(rt, held, &mut kept, &space[..n]) else {
            return;
        };
        held = next;
    }
}
