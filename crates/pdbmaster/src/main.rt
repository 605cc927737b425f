// Holds standard input against its MASTER line, or says on standard error why it can't. It reads its input in parts, as they come, and keeps no more
// of it than a line.
#![tactic(auto)]

ghost use Rattle.pdbmaster.specs.Came as specs;

use audit::feed::{watch_last, watch_part};
use audit::watch::{Watch, judge};
use carry::held::Held;
use stream::input::read_some;
use stream::reason::fail;
use verdict::put_verdict;

// More reads than any run makes: a proved loop has to end, and a place in the input has to have a number.
const MOST_READS: usize = 140737488355328;

// Prints all that there is to print, by what was known and held at the end of the input. These are there for the condition alone.
fn hand_over(rt: &(impl Print + Eprint), held: Held, kept: &[u8; 1024], watch: Watch, text: &[u8])
    requires { specs.Tells (record { watch = watch; state = record { held = held; kept = kept.now } }) text.now }
{
    if let Err(why) = rt.write_all(text) {
        fail(rt, "pdbmaster: standard output", why);
    }
}

// What there is to print at the end of the input.
fn print_verdict(rt: &(impl Print + Eprint), held: Held, kept: &[u8; 1024], watch: Watch)
    requires { specs.Came (record { watch = watch; state = record { held = held; kept = kept.now } }) 0 }
{
    let mut space = [0u8; 4096];
    let n = put_verdict(judge(watch_last(held, kept, watch)), &mut space);
    hand_over(rt, held, kept, watch, &space[..n]);
}

fn main(rt: HostRuntime) {
    let mut source = rt.stdin();
    let mut kept = [0u8; 1024];
    let mut held = Held::none(1);
    let mut watch = Watch::NONE;
    let mut space = [0u8; 65536];
    for _turn in 0..MOST_READS {
        let n = match read_some(&mut source, &mut space) {
            Ok(n) => n,
            Err(why) => {
                fail(&rt, "pdbmaster: standard input", why);
                return;
            }
        };
        if n == 0 {
            print_verdict(&rt, held, &kept, watch);
            return;
        }
        let watched = watch_part(held, &mut kept, watch, &space[..n]);
        held = watched.held;
        watch = watched.watch;
    }
}
