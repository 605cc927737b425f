// Cuts the two files of its folder `data`, the short one at every two places, the same one and both ends among them, and the long one at every
// one; feeds the parts, and compares what is put for them with what is put for the whole. It prints what is put for the whole, how many ways of
// cutting there were, and for how many of them something else was put. The file `stdout` was worked out apart from this program.
#![tactic(auto)]

use carry::held::Held;
use intake::read_full;
use parts::{feed, finish};
use std::fs;
use std::rt::Files;

// More bytes, and more turns, than the files ask for.
const MANY: usize = 65536;

// What is held behind a part, and how many bytes are put.
#[derive(Clone, Copy)]
pub struct Put {
    pub held: Held,
    pub n: usize,
}

// Feeds a part, and puts behind the first n of lent bytes what there is to put for it; or None, if there is no room.
fn put_part(
    held: Held,
    kept: &mut [u8; 1024],
    part: &[u8],
    out: &mut [u8],
    n: usize,
) -> Option<Put> {
    let mut put = Put { held, n };
    let mut at = 0;
    for _ in 0..MANY {
        if part.len() <= at {
            return Some(put);
        }
        let fed = feed(put.held, kept, part, at, out.get_mut(put.n..)?);
        at = fed.at;
        put = Put {
            held: fed.held,
            n: put.n.checked_add(fed.n)?,
        };
    }
    None
}

// How many bytes are put for a file that is cut at two places, or None if there is no room.
fn put_parts(file: &[u8], i: usize, j: usize, out: &mut [u8]) -> Option<usize> {
    let mut kept = [0u8; 1024];
    let first = put_part(Held::none(1), &mut kept, file.get(..i)?, out, 0)?;
    let second = put_part(first.held, &mut kept, file.get(i..j)?, out, first.n)?;
    let third = put_part(second.held, &mut kept, file.get(j..)?, out, second.n)?;
    let more = finish(third.held, &kept, out.get_mut(third.n..)?);
    third.n.checked_add(more)
}

// The same, with all of the space where there is no room.
fn put_cut(file: &[u8], i: usize, j: usize, out: &mut [u8; MANY]) -> usize {
    put_parts(file, i, j, out).unwrap_or(MANY)
}

// How many ways of cutting there were, and for how many of them something else was put.
#[derive(Clone, Copy)]
pub struct Tried {
    pub ways: u32,
    pub others: u32,
}

impl Tried {
    // One way more.
    fn more(self, is_same: bool) -> Tried {
        Tried {
            ways: self.ways.saturating_add(1),
            others: self.others.saturating_add(u32::from(!is_same)),
        }
    }
}

// Whether the same is put for a file that is cut at two places.
fn is_put(file: &[u8], i: usize, j: usize, whole: &[u8]) -> bool {
    let mut other = [0u8; MANY];
    let n = put_cut(file, i, j, &mut other);
    other.get(..n) == Some(whole)
}

// Every first cut, with every second one behind it; or with the same place alone.
fn try_all(file: &[u8], twice: bool, whole: &[u8]) -> Tried {
    let mut tried = Tried { ways: 0, others: 0 };
    for i in 0..=file.len() {
        let last = if twice { file.len() } else { i };
        for j in i..=last {
            tried = tried.more(is_put(file, i, j, whole));
        }
    }
    tried
}

fn print_number(rt: &impl Print, label: &[u8], n: u32) {
    let _ = rt.write_all(label);
    let _ = rt.println(n);
}

fn try_cuts(rt: &impl Print, file: &[u8], twice: bool) {
    let mut space = [0u8; MANY];
    let n = put_cut(file, 0, 0, &mut space);
    let Some(whole) = space.get(..n) else {
        return;
    };
    let _ = rt.write_all(whole);
    let tried = try_all(file, twice, whole);
    print_number(rt, b"ways=", tried.ways);
    print_number(rt, b"others=", tried.others);
}

fn try_file(rt: &(impl Files + Print + Eprint), path: &str, twice: bool) {
    match fs::open(rt, path) {
        Ok(mut file) => {
            let mut space = [0u8; 4096];
            let size = read_full(&mut file, &mut space);
            try_cuts(rt, &space[..size], twice);
        }
        Err(why) => {
            let _ = eprintln!(rt; "{path}: {why}");
        }
    }
}

fn main(rt: HostRuntime) {
    try_file(&rt, "short", true);
    try_file(&rt, "long", false);
}
