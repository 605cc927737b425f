// Reads each line of its file `stdin` and writes the record again: the 80 bytes, or number, place and length of the refusal. The name that
// is lent is what the line has in an atom's columns. Behind a `/` the line is written into 79 bytes, and behind a `=` each real with as many
// decimals as it was read with. A line that isn't read has `unread`. The file `stdout` was worked out apart from this program.
#![tactic(auto)]

use intake::read_full;
use lexer::lex_line;
use lexitem::item::LexItem;
use line::columns::Columns;
use line::options::Options;
use sheet::Unwritten;
use walker::lines::line;
use walker::step;
use writer::{write_as_read, write_record};

const NAME: Columns = Columns { start: 12, end: 16 };

fn put(rt: &impl Print, text: &[u8]) {
    let _ = rt.write_all(text);
}

fn put_number(rt: &impl Print, n: u64) {
    let _ = rt.print(n);
}

fn put_refusal(rt: &impl Print, number: u64, place: u64, length: u64) {
    put_number(rt, number);
    put(rt, b",");
    put_number(rt, place);
    put(rt, b",");
    put_number(rt, length);
    put(rt, b"\n");
}

fn put_written(rt: &impl Print, written: Result<(), Unwritten>, bytes: &[u8]) {
    match written {
        Ok(()) => {
            put(rt, bytes);
            put(rt, b"\n");
        }
        Err(Unwritten::NoFit(at)) => put_refusal(rt, 9, at.start as u64, at.width() as u64),
        Err(Unwritten::NoRoom) => put_refusal(rt, 8, 0, 80),
    }
}

fn write_again(rt: &impl Print, item: LexItem, text: &[u8]) {
    let mut space = [35u8; 80];
    let name = NAME.part(text);
    let written = write_record(item, text, b" ", name, b"", &mut space);
    put_written(rt, written, &space);
}

fn write_short(rt: &impl Print, item: LexItem, text: &[u8]) {
    let mut space = [35u8; 79];
    let name = NAME.part(text);
    let written = write_record(item, text, b" ", name, b"", &mut space);
    put_written(rt, written, &space);
}

fn write_places(rt: &impl Print, item: LexItem, text: &[u8]) {
    let mut space = [35u8; 80];
    let name = NAME.part(text);
    let written = write_as_read(item, text, b" ", name, &mut space);
    put_written(rt, written, &space);
}

// The mark is the byte that the line stands behind, or a blank.
fn try_line(rt: &impl Print, text: &[u8], mark: u8) {
    let remarks = [1u8; 1000];
    let answer = lex_line(text, 1, Options::PLAIN, &remarks);
    match answer.outcome {
        Ok(item) => {
            if mark == b'/' {
                write_short(rt, item, text);
            } else if mark == b'=' {
                write_places(rt, item, text);
            } else {
                write_again(rt, item, text);
            }
        }
        Err(_) => put(rt, b"unread\n"),
    }
}

fn try_lines(rt: &impl Print, file: &[u8]) {
    let mut at = 0;
    // No iterator counts this: each line says where the next one begins.
    while at < file.len() {
        let Some(found) = step(file, at) else {
            return;
        };
        if found.next <= at {
            return;
        }
        let text = line(file, found.start, found.end);
        match text.first() {
            Some(b'/') => try_line(rt, &text[1..], b'/'),
            Some(b'=') => try_line(rt, &text[1..], b'='),
            _ => try_line(rt, text, b' '),
        }
        at = found.next;
    }
}

fn main(rt: HostRuntime) {
    let mut space = [0u8; 65536];
    let n = read_full(&mut rt.stdin(), &mut space);
    try_lines(&rt, &space[..n]);
}
