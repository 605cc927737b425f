// Lists the lines of its file `stdin`. A line that begins with `/` stands for its rest cut at every length from 0 to 81. The
// file `stdout` was worked out apart from this program.
#![tactic(auto)]

ghost use Rattle.std.specs.Prelude.{◌+◌, ◌≤◌};

use intake::read_full;
use report::fill::put_line;
use walker::lines::line;
use walker::step;

// Prints a line's report, in a space where the longest has room.
fn print_line(rt: &impl Print, text: &[u8], number: usize) {
    let mut space = [0u8; 4096];
    let n = put_line(text, number, &mut space);
    let _ = rt.write_all(&space[..n]);
}

// Every cut of a line, the first having the number, and the number behind the last one's.
fn print_cuts(rt: &impl Print, text: &[u8], number: usize) -> usize
    requires { number ≤ 6000000 }
    ensures { result ≤ number + 82 }
{
    let cuts = text.len().min(81);
    for n in 0..=cuts {
        print_line(rt, &text[..n], number + n);
    }
    number + cuts + 1
}

fn print_lines(rt: &impl Print, file: &[u8]) {
    let mut at = 0;
    let mut number = 1;
    for _ in 0..file.len() {
        if 5000000 < number {
            return;
        }
        let Some(found) = step(file, at) else {
            return;
        };
        let text = line(file, found.start, found.end);
        if let Some(text) = text.strip_prefix(b"/") {
            number = print_cuts(rt, text, number);
        } else {
            print_line(rt, text, number);
            number += 1;
        }
        at = found.next;
    }
}

fn main(rt: HostRuntime) {
    let mut space = [0u8; 65536];
    let n = read_full(&mut rt.stdin(), &mut space);
    print_lines(&rt, &space[..n]);
}
