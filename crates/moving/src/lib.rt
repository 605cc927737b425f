// Rows collected for C hosts, and a position moved by them. The rows are lent: twelve doubles, row by row, and three bytes that say which
// of them are set.
#![tactic(auto)]

ghost use Rattle.moving.specs.Matrix as specs;
ghost use Rattle.std.specs.Prelude.{◌≡◌, ◌<◌, ◌≤◌, ◌+◌, length};

use atom::record::Position;
use matrix::{Rows, apply, whole};
use transformation::record::Transformation;

// The row of a number, set if its byte isn't 0 and its doubles are there.
fn slot(rows: &[f64], set: &[u8], number: usize) -> Option<Transformation>
    requires { number < 3 }
    ensures { result ≡ specs.slot_at rows.now set.now number }
{
    if set.len() <= number || set[number] == 0 {
        return None;
    }
    let at = 4 * number;
    if rows.len() < at + 4 {
        return None;
    }
    Some(Transformation {
        a: rows[at],
        b: rows[at + 1],
        c: rows[at + 2],
        d: rows[at + 3],
    })
}

fn put_four(rows: &mut [f64], at: usize, row: Transformation)
    requires { at + 4 ≤ length rows.old }
    ensures { rows.new ≡ specs.four_put rows.old at row }
{
    rows[at] = row.a;
    rows[at + 1] = row.b;
    rows[at + 2] = row.c;
    rows[at + 3] = row.d;
}

fn put_three(out: &mut [f64], position: Position)
    requires { 3 ≤ length out.old }
    ensures { out.new ≡ specs.three_put out.old position }
{
    out[0] = position.x;
    out[1] = position.y;
    out[2] = position.z;
}

pub fn set_row(row: u64, a: f64, b: f64, c: f64, d: f64, rows: &mut [f64], set: &mut [u8]) -> u64
    ensures { specs.Collects rows.old set.old row (record { a = a; b = b; c = c; d = d }) result rows.new set.new }
{
    if 2 < row {
        return 13 * 281474976710656;
    }
    if rows.len() < 12 {
        return 8 * 281474976710656 + 12;
    }
    if set.len() < 3 {
        return 8 * 281474976710656 + 3;
    }
    let number = row as usize;
    put_four(rows, 4 * number, Transformation { a, b, c, d });
    set[number] = 1;
    0
}

pub fn move_position(rows: &[f64], set: &[u8], x: f64, y: f64, z: f64, out: &mut [f64]) -> u64
    ensures { specs.Applies (specs.handed_by rows.now set.now) (record { x = x; y = y; z = z }) out.old result out.new }
{
    let collected = Rows {
        first: slot(rows, set, 0),
        second: slot(rows, set, 1),
        third: slot(rows, set, 2),
    };
    let Some(matrix) = whole(collected) else {
        return 14 * 281474976710656;
    };
    if out.len() < 3 {
        return 8 * 281474976710656 + 3;
    }
    put_three(out, apply(matrix, Position { x, y, z }));
    0
}
