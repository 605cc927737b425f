// One line more, and all lines of bytes that are at hand.
ghost use Rattle.std.specs.Prelude.{true, ◌≡◌};
ghost use Rattle.audit.specs.Said.{said_in, said_of};
ghost use Rattle.audit.specs.Watch as specs;
ghost use Rattle.carry.specs.Pieces.{stretches_of};
ghost use Rattle.tally.specs.Names.{is_master};

use crate::watch::{Masters, Watch};
use lexer::lex_line;
use lexitem::answer::Refusal;
use lexitem::item::LexItem;
use line::options::Options;
use master::record::Master;
use tally::counted;
use tally::names::is_master;
use walker::lines::line;
use walker::step;

// The longest line that the lexer reads.
const LONGEST: usize = 1024;

fn said_in(outcome: Result<LexItem, Refusal>) -> Option<Master>
    ensures { result ≡ said_in outcome }
{
    match outcome {
        Ok(LexItem::Master(master)) => Some(master),
        _ => None,
    }
}

// Reads a MASTER line with the plain options. The lexer calls the six bytes alone EMPTY, so they say nothing.
fn read_master(text: &[u8]) -> Option<Master>
    requires { is_master text.now ≡ true }
    ensures { result ≡ said_of text.now }
{
    let remarks = [1u8; 1000];
    let answer = lex_line(text, 1, Options::PLAIN, &remarks);
    if answer.faults.count != 0 {
        return None;
    }
    said_in(answer.outcome)
}

// The first MASTER line, of so many bytes, which stands at a place. Over 1,024 of them can't be read, and needn't be at hand.
fn first_master(text: &[u8], size: usize, at: usize) -> Masters
    requires { is_master text.now ≡ true }
    ensures { result ≡ specs.first_master text.now size at }
{
    if LONGEST < size {
        return Masters::Unread {
            start: at,
            length: size,
        };
    }
    match read_master(text) {
        Some(said) => Masters::Numbers(said),
        None => Masters::Unread {
            start: at,
            length: size,
        },
    }
}

// A MASTER line more.
fn with_master(masters: Masters, text: &[u8], size: usize, at: usize) -> Masters
    requires { is_master text.now ≡ true }
    ensures { result ≡ specs.with_master masters text.now size at }
{
    match masters {
        Masters::Missing => first_master(text, size, at),
        Masters::Several { start, length } => Masters::Several { start, length },
        Masters::Unread {
            start: _,
            length: _,
        } => Masters::Several {
            start: at,
            length: size,
        },
        Masters::Numbers(_) => Masters::Several {
            start: at,
            length: size,
        },
    }
}

// A line more, if it is a MASTER line.
fn with_line(masters: Masters, text: &[u8], size: usize, at: usize) -> Masters
    ensures { result ≡ specs.with_line masters text.now size at }
{
    if is_master(text) {
        return with_master(masters, text, size, at);
    }
    masters
}

// The place behind so many bytes.
fn further(at: usize, taken: usize) -> usize
    ensures { result ≡ specs.further at taken }
{
    at.saturating_add(taken)
}

// One line more, of which a front is at hand, that has so many bytes and takes up so many with what ends it.
pub fn see_line(watch: Watch, text: &[u8], size: usize, taken: usize) -> Watch
    ensures { result ≡ specs.seen watch text.now size taken }
{
    let before = watch.masters;
    let tally = counted(watch.counted, text);
    let masters = with_line(before, text, size, watch.at);
    Watch {
        at: further(watch.at, taken),
        counted: tally,
        masters,
    }
}

// All lines of a file, or of what stands whole in a part, more.
pub fn see_lines(watch: Watch, file: &[u8]) -> Watch
    ensures { result ≡ specs.watched watch (stretches_of file.now) }
{
    let mut w = watch;
    let mut at = 0;
    // No iterator counts this: each line says where the next one begins.
    while let Some(here) = step(file, at) {
        let text = line(file, here.start, here.end);
        w = see_line(w, text, text.len(), here.next - at);
        at = here.next;
    }
    w
}
