// Lists each file of its folder `data` as pdblist lists its input. The files are lines drawn by the differential run, of every kind and with
// every fault that pdblist can show at every place, and `stdout` holds what the Rust answered for them; differential/README.md says how both
// were made. The last file is empty.
#![tactic(auto)]

use std::fs::File;
use std::rt::Files;
use stream::list_from;
use stream::reason::fail;

fn replay(rt: &(impl Files + Print + Eprint), path: &str) {
    match File::open(rt, path) {
        Ok(file) => {
            let mut source = file;
            list_from(rt, &mut source);
        }
        Err(why) => fail(rt, path, why),
    }
}

fn main(rt: HostRuntime) {
    replay(&rt, "sample-1");
    replay(&rt, "sample-2");
    replay(&rt, "sample-3");
    replay(&rt, "nothing");
}
