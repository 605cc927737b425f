// What there is to write for a line that was held, at the front of lent bytes, and what is held then.
ghost use Rattle.std.specs.Prelude.{◌≡◌, ◌≤◌, ◌<◌, length, drop};
ghost use Rattle.pdbmend.specs.Held as specs;
ghost use Rattle.pdbmend.specs.Turn as turns;

use crate::held::{Held, absorb, line_size};
use page::put_bytes;
use repair::{Repaired, repair_line};
use walker::following;

// The bytes of a line that no LF ended, or that has too many.
pub fn put_text(held: Held, kept: &[u8], out: &mut [u8], rows: &mut [u8]) -> Repaired
    requires { (held.n ≤ length kept.now) × (1024 ≤ length out.old) }
    ensures { turns.Puts (turns.text_said (specs.state held kept.now)) out.old rows.old out.new rows.new result }
{
    let n = held.n;
    if held.over {
        let all = put_bytes(out, 0, &kept[..n]);
        return Repaired { n: all, rows: 0 };
    }
    repair_line(&kept[..n], held.number, out, rows)
}

// A line that an LF ended, with the LF and with a CR before it.
fn put_ended(held: Held, kept: &[u8], out: &mut [u8], rows: &mut [u8]) -> Repaired
    requires { (held.n ≤ length kept.now) × (1024 ≤ length out.old) }
    ensures { turns.Puts (turns.ended_said (specs.state held kept.now)) out.old rows.old out.new rows.new result }
{
    let n = held.n;
    if held.over {
        let end = put_bytes(out, 0, &kept[..n]);
        let all = put_bytes(out, end, b"\n");
        return Repaired { n: all, rows: 0 };
    }
    let size = line_size(kept, n);
    let line = repair_line(&kept[..size], held.number, out, rows);
    let end = put_bytes(out, line.n, &kept[size..n]);
    let all = put_bytes(out, end, b"\n");
    Repaired {
        n: all,
        rows: line.rows,
    }
}

// What is held, the offset of the first byte of the part that wasn't taken, and how many bytes were put for each of the two outputs.
#[derive(Clone, Copy)]
pub struct Turned {
    pub held: Held,
    pub at: usize,
    pub n: usize,
    pub rows: usize,
}

// Takes bytes of a part from an offset on, up to the first LF or as many as are kept, and puts what there is to write for them.
pub fn turn(
    held: Held,
    kept: &mut [u8; 1026],
    part: &[u8],
    at: usize,
    out: &mut [u8],
    rows: &mut [u8],
) -> Turned
    requires { (held.n < 1026) × (1024 ≤ length out.old) }
    ensures { turns.Turns (turns.turn (specs.state held kept.old) (drop at part.now)) at out.old rows.old out.new rows.new kept.new result }
{
    let absorbed = absorb(held.n, kept, part, at);
    let n = absorbed.n;
    let lf = absorbed.at;
    let over = held.over;
    let number = held.number;
    let whole = Held { n, over, number };
    if n == 1026 {
        let put = put_text(whole, kept, out, rows);
        let rest = Held {
            n: 0,
            over: true,
            number,
        };
        return Turned {
            held: rest,
            at: lf,
            n: put.n,
            rows: put.rows,
        };
    }
    if part.len() <= lf {
        return Turned {
            held: whole,
            at: lf,
            n: 0,
            rows: 0,
        };
    }
    let put = put_ended(whole, kept, out, rows);
    Turned {
        held: Held::none(following(number)),
        at: lf + 1,
        n: put.n,
        rows: put.rows,
    }
}
