// Answers over pipes what the four entries of `saltighedda` that list a line answer, for a host on a processor that can't call them; what
// `saltighedda_read` says of its faults and no listing shows; and what `write_record` and `write_as_read` make of the record that was read.
// Standard input comes in blocks: a word with the size, and then so many bytes, 65,536 at most. The first block holds the remark tables, and
// has no reply. Every other one holds requests, one behind the other, and once it is there whole, a reply to each is written to standard output,
// in the same order. The program ends when the input ends or a write fails, and at a block that is empty, too long or not whole, which isn't
// answered.
//
// A word has eight bytes, the lowest first. Requests and replies begin with words:
//
//     a request                                        a reply
//      0  the line's number                             0  what saltighedda_list answered
//      8  the options, and the task in bits 32, 33      8  saltighedda_list_refusal
//     16  the length of the line                       16  saltighedda_list_place
//     24  where the table begins in the first block    24  saltighedda_list_length
//     32  the length of the table                      32  the sorts of the faults that saltighedda_read told
//     40  the room                                     40  the line number that these faults have
//     48  the line                                     48  how many bytes of output follow
//                                                      56  the output
//
// A sort is 1 for unsigned, 2 for signed, 3 for real, and 0 for a fault that isn't a 2 or where there is none. There are at most fifteen
// faults, and each has two bits of the word, the first fault the lowest; the upper half of the word is 0. The line number is 0 if there is no
// fault, 2^64-1 if two have different ones, and 2^64-2 if one has another kind of record than the line.
//
// The options are the low 32 bits of their word. If bit 32 is 0 the line is listed, and if it is 1 its record is written, by `write_record`
// with no places asked if bit 33 is 0, and by `write_as_read` if it is 1; the bits above have no effect. To write, the line is read with the
// options, and unless it is refused, its record goes out into the lent output. One blank stands in for a character that the line doesn't reach,
// and the atom's name that is lent are the line's bytes in 12..16, or four blanks where it has under 16. The reply's first word is 0 if a line
// was written, else the record's refusal as the entries for C pack it (number * 2^48 + place * 2^32 + length), or 2^64-2 if the line was refused.
// The five words behind it are 0.
//
// The output has 4,160 bytes, which are all 0xC5 before the calls, and as many of them as there is room are lent to these. Of its 65 chunks of
// 64 bytes those are sent up to the last in which a byte isn't 0xC5 any more. So the asker knows each byte as it was left, also behind what was
// lent: what isn't sent is 0xC5.
//
// If the table doesn't lie within the first block, or the room is over 4,096, nothing is called: the reply's first word is 2^64-1, the others
// are 0, and no output is sent. What is left of a block when it isn't a whole request has one such reply.
#![tactic(auto)]

ghost use Rattle.std.specs.Prelude.{◌+◌, ◌<◌, ◌≤◌, length, IfOk, IfSome};

use lexer::lex_line;
use lexitem::item::LexItem;
use line::fault::Faults;
use packing::options_of;
use saltighedda::read::saltighedda_read;
use saltighedda::{
    saltighedda_list, saltighedda_list_length, saltighedda_list_place, saltighedda_list_refusal,
};
use sheet::Unwritten;
use std::io::Read;
use writer::{write_as_read, write_record};

// The most bytes of a block.
const BLOCK: usize = 65536;

// So many bytes of replies are written together: what a pipe holds.
const REPLIES: usize = 65536;

// The longest reply.
const REPLY: usize = OUTPUT + CHUNKS * CHUNK;

const WORD: usize = 8;

// Where the parts of a request begin.
const NUMBER: usize = 0;

const OPTIONS: usize = 8;

const LINE_LENGTH: usize = 16;

const TABLE: usize = 24;

const TABLE_LENGTH: usize = 32;

const ROOM: usize = 40;

const LINE: usize = 48;

// Where the parts of a reply begin.
const WRITTEN: usize = 0;

const REFUSAL: usize = 8;

const PLACE: usize = 16;

const LENGTH: usize = 24;

const SORTS: usize = 32;

const FAULTS_LINE: usize = 40;

const SENT: usize = 48;

const OUTPUT: usize = 56;

// Every listing has room in so much. The output has 64 bytes more, which are never lent.
const MOST_ROOM: usize = 4096;

const CHUNK: usize = 64;

const CHUNKS: usize = 65;

const MARK: u8 = 0xC5;

const NOT_CALLED: usize = usize::MAX;

const NOT_READ: usize = usize::MAX - 1;

// A line of any kind is to be read.
const ANY: u32 = 4294967295;

// How many words the fields of a line and its faults take at most.
const FIELD_WORDS: usize = 34;

const FAULT_WORDS: usize = 1 + 2 * Faults::MOST;

// What stands for the faults' line number, if they don't have the same, or if one hasn't the line's kind.
const LINES_DIFFER: u64 = u64::MAX;

const KIND_DIFFERS: u64 = u64::MAX - 1;

// The bits of the options word that say the task: whether to write, and whether with the places that were read.
const TASK: usize = 4294967296;

const AS_READ: usize = 8589934592;

// Where an atom's name stands.
const NAME: usize = 12;

const NAME_END: usize = 16;

// What the first six words of a reply say.
#[derive(Clone, Copy)]
struct Told {
    written: usize,
    refusal: usize,
    place: usize,
    length: usize,
    sorts: usize,
    faults_line: usize,
}

impl Told {
    // A first word, with zeros behind it.
    fn first(written: usize) -> Told {
        Told {
            written,
            refusal: 0,
            place: 0,
            length: 0,
            sorts: 0,
            faults_line: 0,
        }
    }
}

// What the words of a line's faults say.
#[derive(Clone, Copy)]
struct FaultsTold {
    sorts: usize,
    line: usize,
}

fn word(bytes: &[u8], at: usize) -> usize
    requires { at + 8 ≤ length bytes.now }
{
    let mut eight = [0u8; WORD];
    eight.copy_from_slice(&bytes[at..at + WORD]);
    usize::from_le_bytes(eight)
}

fn put_word(bytes: &mut [u8], at: usize, n: usize)
    requires { at + 8 ≤ length bytes.old }
{
    bytes[at..at + WORD].copy_from_slice(&n.to_le_bytes());
}

// The words behind the last fault are 0 and name no sort either, so that nothing has to be counted.
fn sorts_of(faults: [u64; FAULT_WORDS]) -> usize {
    let mut n = 0;
    for i in (0..Faults::MOST).rev() {
        let sort = faults[2 * i + 2] / 65536 % 4;
        n = n << 2 | sort as usize;
    }
    n
}

// Without a fault the first one's words are 0, and so is the line number.
fn line_of(kind: u64, faults: [u64; FAULT_WORDS]) -> u64 {
    let count = faults[0];
    let first = faults[1];
    for i in 0..Faults::MOST {
        if count <= i as u64 {
            return first;
        }
        if faults[2 * i + 1] != first {
            return LINES_DIFFER;
        }
        if faults[2 * i + 2] % 256 != kind {
            return KIND_DIFFERS;
        }
    }
    first
}

// A refused line leaves all words 0.
fn read_faults(line: &[u8], number: usize, options: u32, remarks: &[u8]) -> FaultsTold {
    let mut fields = [0u64; FIELD_WORDS];
    let mut faults = [0u64; FAULT_WORDS];
    saltighedda_read(
        line,
        number,
        options,
        remarks,
        ANY,
        &mut fields,
        &mut faults,
    );
    FaultsTold {
        sorts: sorts_of(faults),
        line: line_of(fields[0], faults) as usize,
    }
}

// The three that mustn't write come first: what they wrote would show wherever nothing is listed.
fn ask(line: &[u8], number: usize, options: u32, remarks: &[u8], out: &mut [u8]) -> Told {
    let refusal = saltighedda_list_refusal(line, number, options, remarks, out);
    let place = saltighedda_list_place(line, number, options, remarks, out);
    let length = saltighedda_list_length(line, number, options, remarks, out);
    let written = saltighedda_list(line, number, options, remarks, out);
    let faults = read_faults(line, number, options, remarks);
    Told {
        written,
        refusal,
        place,
        length,
        sorts: faults.sorts,
        faults_line: faults.line,
    }
}

// The name that is lent: the line's own, or blanks where it doesn't have all of these columns.
fn name_of<'a>(line: &'a [u8], blanks: &'a [u8]) -> &'a [u8] {
    if line.len() < NAME_END {
        return blanks;
    }
    &line[NAME..NAME_END]
}

// An answer as one number, as the entries for C have it.
fn packed(written: Result<(), Unwritten>) -> usize {
    match written {
        Ok(()) => 0,
        Err(Unwritten::NoFit(at)) => {
            let width = at.width() as usize;
            9 * 281474976710656 + at.start as usize * 4294967296 + width
        }
        Err(Unwritten::NoRoom) => 8 * 281474976710656 + 80,
    }
}

fn write_item(item: LexItem, line: &[u8], as_read: bool, out: &mut [u8]) -> usize {
    let name = name_of(line, b"    ");
    if as_read {
        return packed(write_as_read(item, line, b" ", name, out));
    }
    packed(write_record(item, line, b" ", name, b"", out))
}

fn write_line(
    line: &[u8],
    number: usize,
    options: u32,
    as_read: bool,
    remarks: &[u8],
    out: &mut [u8],
) -> usize {
    match lex_line(line, number, options_of(options), remarks).outcome {
        Ok(item) => write_item(item, line, as_read, out),
        Err(_) => NOT_READ,
    }
}

// Lists the line or writes its record, as the options word says.
fn tell(line: &[u8], number: usize, options: usize, remarks: &[u8], out: &mut [u8]) -> Told {
    let low = (options % TASK) as u32;
    if options / TASK % 2 == 1 {
        let as_read = options / AS_READ % 2 == 1;
        return Told::first(write_line(line, number, low, as_read, remarks, out));
    }
    ask(line, number, low, remarks, out)
}

// Answers what should be a request, or None if it can't be asked. The lengths are tested before they are added, so no sum is too large.
fn call(request: &[u8], tables: &[u8], out: &mut [u8]) -> Option<Told>
    requires { 4096 ≤ length out.old }
{
    if request.len() < LINE {
        return None;
    }
    let line = &request[LINE..];
    if word(request, LINE_LENGTH) != line.len() {
        return None;
    }
    let table = tables.get(word(request, TABLE)..)?;
    let remarks = table.get(..word(request, TABLE_LENGTH))?;
    let room = word(request, ROOM);
    if MOST_ROOM < room {
        return None;
    }
    let number = word(request, NUMBER);
    let options = word(request, OPTIONS);
    Some(tell(line, number, options, remarks, &mut out[..room]))
}

fn put_told(reply: &mut [u8], told: Told)
    requires { 48 ≤ length reply.old }
{
    put_word(reply, WRITTEN, told.written);
    put_word(reply, REFUSAL, told.refusal);
    put_word(reply, PLACE, told.place);
    put_word(reply, LENGTH, told.length);
    put_word(reply, SORTS, told.sorts);
    put_word(reply, FAULTS_LINE, told.faults_line);
}

// Whether a chunk is as it was marked. There is no way out before the last byte, so that many can be looked at together.
fn is_marked(chunk: &[u8]) -> bool {
    chunk.iter().fold(0, |other, b| other | *b ^ MARK) == 0
}

// How many bytes of the output are to be sent.
fn changed(out: &[u8]) -> usize
    requires { 4160 ≤ length out.now }
    ensures { result ≤ 4160 }
{
    for n in (0..CHUNKS).rev() {
        if !is_marked(&out[n * CHUNK..(n + 1) * CHUNK]) {
            return (n + 1) * CHUNK;
        }
    }
    0
}

// Puts the reply to what should be a request, and says how many bytes it has. Those behind it are marks, as all were.
fn answer(request: &[u8], tables: &[u8], reply: &mut [u8]) -> usize
    requires { 4216 ≤ length reply.old }
    ensures { result ≤ 4216 }
{
    let told = call(request, tables, &mut reply[OUTPUT..]).unwrap_or(Told::first(NOT_CALLED));
    put_told(reply, told);
    let n = changed(&reply[OUTPUT..]);
    put_word(reply, SENT, n);
    OUTPUT + n
}

// Where the request at the front of a block ends; if there isn't a whole one, the end of the block.
fn end_of(block: &[u8]) -> usize
    requires { 0 < length block.now }
    ensures lower_bound { 0 < result }
    ensures upper_bound { result ≤ length block.now }
{
    if block.len() < LINE {
        return block.len();
    }
    let line = word(block, LINE_LENGTH);
    if block.len() - LINE < line {
        return block.len();
    }
    LINE + line
}

// Writes replies, and makes them marks again.
fn send(rt: &impl Print, replies: &mut [u8]) -> std::io::Result<()> {
    rt.write_all(replies)?;
    replies.fill(MARK);
    Ok(())
}

// Where the next reply goes: behind the others, or if there is no room, in front once they are written.
fn place_for(rt: &impl Print, replies: &mut [u8], to: usize) -> std::io::Result<usize>
    requires { (to ≤ length replies.old) × (4216 ≤ length replies.old) }
    ensures { IfOk result (λ place. place + 4216 ≤ length replies.old) }
{
    if REPLY <= replies.len() - to {
        return Ok(to);
    }
    send(rt, &mut replies[..to])?;
    Ok(0)
}

// Answers each request of a block.
fn answer_all(
    rt: &impl Print,
    block: &[u8],
    tables: &[u8],
    replies: &mut [u8],
) -> std::io::Result<()>
    requires { 4216 ≤ length replies.old }
{
    let mut rest = block;
    let mut to = 0;
    // No iterator counts this: each request says how far it comes.
    while !rest.is_empty() {
        let place = place_for(rt, replies, to)?;
        let (request, behind) = rest.split_at(end_of(rest));
        to = place + answer(request, tables, &mut replies[place..place + REPLY]);
        rest = behind;
    }
    send(rt, &mut replies[..to])
}

// Takes a block, or None where there is no more, or one that is empty, too long or not whole. It is read whole before the first reply is written: so
// whoever sends it whole before taking the first, and takes them all before the next, never waits in vain.
fn read_block<'a>(input: &mut impl Read, block: &'a mut [u8]) -> Option<&'a [u8]>
    ensures { IfSome result (λ whole. length whole.now ≤ length block.old) }
{
    let mut head = [0u8; WORD];
    input.read_exact(&mut head).ok()?;
    let size = usize::from_le_bytes(head);
    if size == 0 {
        return None;
    }
    let whole = block.get_mut(..size)?;
    input.read_exact(whole).ok()?;
    Some(whole)
}

// A proved loop has to end, and nothing says that the input does: there are as many turns as no run uses up.
fn main(rt: HostRuntime) {
    let mut input = rt.stdin();
    let mut tables_space = [0u8; BLOCK];
    let mut space = [0u8; BLOCK];
    let mut replies = [MARK; REPLIES];
    let Some(tables) = read_block(&mut input, &mut tables_space) else {
        return;
    };
    for _ in 0..u64::MAX {
        let Some(block) = read_block(&mut input, &mut space) else {
            return;
        };
        if answer_all(&rt, block, tables, &mut replies).is_err() {
            return;
        }
    }
}
