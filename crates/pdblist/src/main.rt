// Lists the lines of standard input.
#![tactic(auto)]

use stream::list_input;

fn main(rt: HostRuntime) {
    list_input(&rt);
}
