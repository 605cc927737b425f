// What is told of a line that was held: its account goes to standard output, and it is entered in the ledger.
ghost use Rattle.std.specs.Prelude.{◌≡◌, ◌≤◌, ◌<◌, length};
ghost use Rattle.pdbreport.specs.Fed as specs;

use account::put_account;
use carry::held::Held;
use carry::keep::MOST_KEPT;
use ledger::enter;
use lexer::{excess, lex_line};
use lexitem::answer::{Answer, Refusal};
use lexitem::fault::LineFaults;
use line::options::Options;
use std::io::Result;
use stream::reason::fail;

// Writes a text, or says on standard error why it can't.
pub fn hand_over(rt: &(impl Print + Eprint), text: &[u8]) -> Result<()> {
    rt.write_all(text)
        .inspect_err(|why| fail(rt, "pdbreport: standard output", *why))
}

// Prints what is due for the line that is held, if it has so many bytes. What is known is there for the condition alone.
fn print_account(
    rt: &(impl Print + Eprint),
    held: Held,
    kept: &[u8],
    ledger: &[u64; 69],
    size: usize,
    text: &[u8],
) -> Result<()>
    requires { specs.Due (specs.progress ledger.now held kept.now) size text.now }
{
    hand_over(rt, text)
}

// Tells of a line with its answer.
fn tell(
    rt: &(impl Print + Eprint),
    held: Held,
    kept: &[u8],
    ledger: &mut [u64; 69],
    size: usize,
    line: &[u8],
    answer: Answer,
) -> Result<()>
    requires { specs.Next (specs.progress ledger.old held kept.now) size line.now answer }
    ensures { ledger.new ≡ specs.held_ledger ledger.old held.number size kept.now }
{
    let mut out = [0u8; 4096];
    let n = put_account(&mut out, 0, line, answer);
    let written = print_account(rt, held, kept, ledger, size, &out[..n]);
    enter(ledger, line, answer);
    written
}

// Of one that is refused by its length.
fn tell_over(
    rt: &(impl Print + Eprint),
    held: Held,
    kept: &[u8],
    ledger: &mut [u64; 69],
    size: usize,
) -> Result<()>
    requires { (specs.Came (specs.progress ledger.old held kept.now) 0) × (specs.Ends held size) × (1024 < size) }
    ensures { ledger.new ≡ specs.held_ledger ledger.old held.number size kept.now }
{
    let why = Refusal::new(2, MOST_KEPT, excess(size));
    let answer = Answer {
        line: held.number,
        outcome: Err(why),
        faults: LineFaults::none(),
    };
    tell(rt, held, kept, ledger, size, kept, answer)
}

// Of one that is kept whole.
fn tell_front(
    rt: &(impl Print + Eprint),
    held: Held,
    kept: &[u8],
    ledger: &mut [u64; 69],
    size: usize,
) -> Result<()>
    requires { (specs.Came (specs.progress ledger.old held kept.now) 0) × (specs.Ends held size) × (size ≤ 1024) × (size ≤ length kept.now) }
    ensures { ledger.new ≡ specs.held_ledger ledger.old held.number size kept.now }
{
    let remarks = [1u8; 1000];
    let answer = lex_line(&kept[..size], held.number, Options::PLAIN, &remarks);
    tell(rt, held, kept, ledger, size, &kept[..size], answer)
}

// Tells of the line that is held, if it has so many bytes.
pub fn tell_held(
    rt: &(impl Print + Eprint),
    held: Held,
    kept: &[u8; 1024],
    ledger: &mut [u64; 69],
    size: usize,
) -> Result<()>
    requires { (specs.Came (specs.progress ledger.old held kept.now) 0) × (specs.Ends held size) }
    ensures { ledger.new ≡ specs.held_ledger ledger.old held.number size kept.now }
{
    if MOST_KEPT < size {
        return tell_over(rt, held, kept, ledger, size);
    }
    tell_front(rt, held, kept, ledger, size)
}
