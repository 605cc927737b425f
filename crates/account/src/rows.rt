// A row for each fault: carets under its columns, and what was put there.
ghost use Rattle.std.specs.Prelude.{◌≡◌, ◌-◌, ◌≤◌, min, length, take};
ghost use Rattle.line.specs.Faults.{number_of};
ghost use Rattle.page.specs.Page.{page, put};
ghost use Rattle.account.specs.Account as specs;

use crate::text::put_many;
use kind::Kind;
use line::fault::{Fault, Faults};
use names::{put_default, put_name};
use page::put_bytes;

// How many carets stand under so many columns from a place on.
fn carets(place: usize, size: usize) -> usize
    ensures { result ≡ min size (120 - place) }
{
    size.min(120usize.saturating_sub(place))
}

// Carets under columns.
fn put_under(out: &mut [u8], at: usize, place: u16, size: u16) -> usize
    ensures { page out.new result ≡ put (page out.old at) (specs.under place size) }
{
    let first = put_many(out, at, 4 + place as usize, 32);
    put_many(out, first, carets(place as usize, size as usize), 94)
}

// The field's name.
fn put_named(out: &mut [u8], at: usize, kind: Kind, place: usize) -> usize
    ensures { page out.new result ≡ put (page out.old at) (specs.named kind place) }
{
    let name = put_bytes(out, at, b" ");
    let end = put_name(out, name, kind, place);
    put_bytes(out, end, b": not read; ")
}

// The field's name, and what was put there.
fn put_said(out: &mut [u8], at: usize, kind: Kind, place: usize) -> usize
    ensures { page out.new result ≡ put (page out.old at) (specs.said kind place) }
{
    let default = put_named(out, at, kind, place);
    let end = put_default(out, default, kind, place);
    put_bytes(out, end, b" was put there\n")
}

// The row of a fault.
fn put_row(out: &mut [u8], at: usize, kind: Kind, fault: Fault) -> usize
    ensures { page out.new result ≡ put (page out.old at) (specs.fault_row kind fault) }
{
    let said = put_under(out, at, fault.place, fault.length);
    put_said(out, said, kind, fault.place as usize)
}

// The rows of some faults.
pub(crate) fn put_rows(out: &mut [u8], at: usize, kind: Kind, faults: &[Fault]) -> usize
    ensures { page out.new result ≡ put (page out.old at) (specs.fault_rows kind faults.now) }
{
    let mut next = at;
    for fault in faults {
        next = put_row(out, next, kind, *fault);
    }
    next
}

// Whether the line ends too early for one of them.
pub(crate) fn is_cut(faults: &[Fault]) -> bool
    ensures { result ≡ specs.is_cut faults.now }
{
    faults.iter().any(|fault| fault.kind.number() == 1)
}
