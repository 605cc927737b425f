// A line's faults as numbers of 64 bits in lent words: two for each. One number in front of them says how many there are.
ghost use Rattle.std.specs.Prelude.{◌≡◌, ◌++◌, ◌≤◌, length, drop};
ghost use Rattle.reading.specs.Faults.{sort_number, sort_of, fault_word, faults_words};
ghost use Rattle.lexitem.specs.Fault.{told};

use kind::numbered::number_of;
use lexitem::fault::{LineFault, LineFaults};
use line::fault::{FaultKind, Sort};

fn sort_number(sort: Sort) -> u64
    ensures { result ≡ sort_number sort }
{
    match sort {
        Sort::Unsigned => 1,
        Sort::Signed => 2,
        Sort::Real => 3,
    }
}

fn sort_of(kind: FaultKind) -> u64
    ensures { result ≡ sort_of kind }
{
    match kind {
        FaultKind::Short => 0,
        FaultKind::Wrong(sort) => sort_number(sort),
        FaultKind::NoDigit => 0,
        FaultKind::NoSign => 0,
        FaultKind::Unknown => 0,
    }
}

// The second word of a fault: all that it says but its line.
fn fault_word(fault: LineFault) -> u64
    ensures { result ≡ fault_word fault }
{
    let what = fault.fault;
    let kind = what.kind;
    let record = fault.kind;
    number_of(record) as u64
        + kind.number() as u64 * 256
        + sort_of(kind) * 65536
        + what.place as u64 * 4294967296
        + what.length as u64 * 281474976710656
}

// A line's faults at the front of lent words.
pub(crate) fn put_faults(out: &mut [u64], faults: LineFaults)
    requires { (31 ≤ length out.old) × (faults.count ≤ 15) × (length (told faults) ≡ faults.count) }
    ensures { out.new ≡ faults_words (told faults) ++ drop (length (faults_words (told faults))) out.old }
{
    let mut next = 1;
    for i in 0..faults.count {
        let fault = faults.at(i);
        out[next] = fault.line as u64;
        out[next + 1] = fault_word(fault);
        next += 2;
    }
    out[0] = faults.count as u64;
}
