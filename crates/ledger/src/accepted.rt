// What is counted of a line that was accepted: by its kind, and by its faults.
ghost use Rattle.std.specs.Prelude.{◌≡◌, ◌&&◌, ◌<◌, take};
ghost use Rattle.ledger.specs.Ledger as specs;

use crate::words::{add, one, raise};
use kind::Kind;
use kind::numbered::number_of;
use lexitem::fault::LineFaults;
use line::fault::{Fault, Faults};
use names::group_of;

// Whether a fault has a number, and its place is one of those from `low` to `high`.
fn is_at(fault: Fault, number: usize, low: u16, high: u16) -> bool
    ensures { result ≡ specs.is_at number low high fault }
{
    let kind = fault.kind;
    let place = fault.place;
    if kind.number() != number {
        return false;
    }
    if place < low {
        return false;
    }
    place <= high
}

// Whether one of some faults is such.
fn any_at(faults: &[Fault], number: usize, low: u16, high: u16) -> bool
    ensures { result ≡ specs.any (specs.is_at number low high) faults.now }
{
    faults.iter().any(|fault| is_at(*fault, number, low, high))
}

// Whether a kind's number is that of ATOM or HETATM.
fn is_atom(number: usize) -> bool
    ensures { result ≡ specs.atoms number }
{
    if number < 3 {
        return false;
    }
    number <= 4
}

// Whether it is, and something else is so.
fn is_atom_and(number: usize, so: bool) -> bool
    ensures { result ≡ (specs.atoms number && so) }
{
    if is_atom(number) {
        return so;
    }
    false
}

// By its kind.
fn enter_kind(ledger: &mut [u64; 69], number: usize, off: bool)
    ensures { ledger.new ≡ specs.with_kind ledger.old number off }
{
    add(ledger, 1, one(number != 0));
    add(ledger, 4, one(is_atom(number)));
    add(ledger, 5, one(is_atom_and(number, off)));
    raise(ledger, 6, number == 27);
}

// The first line in which a field of a group wasn't read.
fn enter_first(ledger: &mut [u64; 69], line: usize, group: usize)
    requires { group < 20 }
    ensures { ledger.new ≡ specs.with_first ledger.old line group }
{
    if ledger[9 + 3 * group] != 0 {
        return;
    }
    ledger[10 + 3 * group] = line as u64;
}

// A field of a group that wasn't read.
fn enter_fault(ledger: &mut [u64; 69], line: usize, group: usize)
    requires { group < 20 }
    ensures { ledger.new ≡ specs.with_fault ledger.old line group }
{
    enter_first(ledger, line, group);
    ledger[11 + 3 * group] = line as u64;
    add(ledger, 9 + 3 * group, 1);
}

// By its faults.
fn enter_faults(ledger: &mut [u64; 69], line: usize, kind: Kind, faults: &[Fault])
    ensures { ledger.new ≡ specs.with_faults ledger.old line kind faults.now }
{
    for fault in faults {
        enter_fault(ledger, line, group_of(kind, fault.place as usize));
    }
}

// What is counted of a line that was accepted. Its list has no more faults than it has room for.
pub fn enter_accepted(ledger: &mut [u64; 69], faults: LineFaults)
    ensures { ledger.new ≡ specs.with_accepted ledger.old faults.line faults.kind (take faults.count faults.list) }
{
    let n = faults.count.min(Faults::MOST);
    let list = &faults.list[..n];
    let off = any_at(list, 2, 38, 46);
    let cut = one(any_at(list, 1, 0, 65535));
    enter_kind(ledger, number_of(faults.kind), off);
    add(ledger, 2, one(0 < n));
    ledger[7] = cut;
    enter_faults(ledger, faults.line, faults.kind, list);
}
