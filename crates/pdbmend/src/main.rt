// Mends standard input line by line onto standard output, and tells on standard error what was done, or why it can't go on.
#![tactic(auto)]

mod held;
mod output;
mod turn;

use crate::held::Held;
use crate::output::{write_last, write_part};
use stream::input::read_some;
use stream::reason::fail;

// More reads than any run makes: a proved loop has to end.
const MOST_READS: usize = 140737488355328;

fn main(rt: HostRuntime) {
    let mut source = rt.stdin();
    let output = rt.stdout();
    let errors = rt.stderr();
    let mut kept = [0u8; 1026];
    let mut held = Held::none(1);
    let mut space = [0u8; 65536];
    for _ in 0..MOST_READS {
        let n = match read_some(&mut source, &mut space) {
            Ok(n) => n,
            Err(why) => {
                fail(&errors, "pdbmend: standard input", why);
                return;
            }
        };
        if n == 0 {
            let _ = write_last(&output, &errors, held, &kept);
            return;
        }
        let Ok(next) = write_part(&output, &errors, held, &mut kept, &space[..n]) else {
            return;
        };
        held = next;
    }
}
