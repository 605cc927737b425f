// Runs the readers of `number` on texts. Standard input is cut at LF; for each text that an LF ends, one line says
// what every reader makes of it: U, I, R as the bits of its double, D as sign, M and p, A as the bits of its
// ten-thousandths, T as place and length, and E as the length that end-trimming leaves. `-` stands for a refusal. W
// is the double of R as `cell` puts it into columns, with `!` behind it where it doesn't fit.
#![tactic(auto)]

use intake::read_full;
use number::decimal::{Decimal, read_decimal};
use number::trim::{read_text, trim_end};
use number::whole::{read_signed, read_unsigned};
use page::bits_of;
use real::{Real, read_real, read_ten_thousandths};

// Each text is tried, whatever became of those before it.
fn put(rt: &impl Print, text: &[u8]) {
    let _ = rt.write_all(text);
}

// The bits of a double, and its places.
fn print_real(rt: &impl Print, x: f64, places: usize) {
    let _ = print!(rt; "{:016X}", bits_of(x));
    put(rt, b"/");
    let _ = print!(rt; "{places}");
}

fn print_u(rt: &impl Print, text: &[u8]) {
    put(rt, b"U=");
    match read_unsigned(text) {
        Some(n) => {
            let _ = print!(rt; "{n}");
        }
        None => put(rt, b"-"),
    }
}

fn print_i(rt: &impl Print, text: &[u8]) {
    put(rt, b" I=");
    match read_signed(text) {
        Some(n) => {
            let _ = print!(rt; "{n}");
        }
        None => put(rt, b"-"),
    }
}

fn print_r(rt: &impl Print, text: &[u8]) {
    put(rt, b" R=");
    match read_real(text) {
        Some(real) => print_real(rt, real.value, real.places as usize),
        None => put(rt, b"-"),
    }
}

fn print_d(rt: &impl Print, text: &[u8]) {
    put(rt, b" D=");
    match read_decimal(text) {
        Some(
            Decimal {
                minus,
                digits,
                places,
            },
        ) => {
            put(rt, if minus { b"-" } else { b"+" });
            let _ = print!(rt; "{digits}");
            put(rt, b"/");
            let _ = print!(rt; "{places}");
        }
        None => put(rt, b"-"),
    }
}

fn print_a(rt: &impl Print, text: &[u8]) {
    put(rt, b" A=");
    match read_ten_thousandths(text) {
        Some(x) => print_real(rt, x, 0),
        None => put(rt, b"-"),
    }
}

fn print_t(rt: &impl Print, text: &[u8]) {
    put(rt, b" T=");
    let span = read_text(text);
    let _ = print!(rt; "{}", span.place);
    put(rt, b",");
    let _ = print!(rt; "{}", span.length);
}

fn print_e(rt: &impl Print, text: &[u8]) {
    put(rt, b" E=");
    let _ = print!(rt; "{}", trim_end(text).len());
}

// A double in so many columns.
fn print_cell(rt: &impl Print, x: f64, width: usize, places: usize) {
    let mut bytes = [0u8; 10];
    let cell = cell::put_real(&mut bytes, 0, width, places, x);
    put(rt, b"[");
    if let Some(text) = bytes.get(..cell.next) {
        put(rt, text);
    }
    put(rt, b"]");
    if !cell.fits {
        put(rt, b"!");
    }
}

// In the columns and places of a coordinate, of a B factor, and of a row of a matrix.
fn print_w(rt: &impl Print, text: &[u8]) {
    put(rt, b" W=");
    let Some(Real { value, .. }) = read_real(text) else {
        put(rt, b"-");
        return;
    };
    print_cell(rt, value, 8, 3);
    print_cell(rt, value, 6, 2);
    print_cell(rt, value, 10, 6);
}

fn print_line(rt: &impl Print, text: &[u8]) {
    print_u(rt, text);
    print_i(rt, text);
    print_r(rt, text);
    print_d(rt, text);
    print_a(rt, text);
    print_t(rt, text);
    print_e(rt, text);
    print_w(rt, text);
    put(rt, b"\n");
}

// A line for each text that an LF ends.
fn print_lines(rt: &impl Print, input: &[u8]) {
    for piece in input.split_inclusive(|b| *b == b'\n') {
        if let Some(text) = piece.strip_suffix(b"\n") {
            print_line(rt, text);
        }
    }
}

fn main(rt: HostRuntime) {
    let mut input = [0u8; 65536];
    let n = read_full(&mut rt.stdin(), &mut input);
    print_lines(&rt, &input[..n]);
}
