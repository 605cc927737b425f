// The charge of an atom: a digit and then a sign.
ghost use Rattle.std.specs.Prelude.{◌≡◌, ◌<◌};
ghost use Rattle.field.specs.Charge as specs;

use crate::found::found_or;
use line::columns::Columns;
use line::fault::{Fault, FaultKind, Faults, Got};

// A digit and then a sign, in two columns that aren't both blank.
fn read_charge(digit: u8, sign: u8) -> Option<i64>
    ensures { result ≡ specs.fine_charge_of digit sign }
{
    if digit < 48 {
        return None;
    }
    if 57 < digit {
        return None;
    }
    let size = (digit - 48) as i64;
    match sign {
        43 => Some(size),
        45 => Some(0 - size),
        _ => None,
    }
}

// A line that doesn't reach both columns has no charge, and one with two blanks neither.
#[inline(always)]
pub fn fine_charge(line: &[u8], at: Columns) -> Option<i64>
    ensures { result ≡ specs.fine_charge line.now at }
{
    let part = at.part(line);
    if part.len() != 2 {
        return Some(0);
    }
    if part[0] == 32 && part[1] == 32 {
        return Some(0);
    }
    read_charge(part[0], part[1])
}

// The fault of a charge that isn't fine, whose first byte is given: the sign's if that is a digit, or else its own.
fn charge_fault(digit: u8, start: u16) -> Fault
    requires { start < 65535 }
    ensures { result ≡ specs.charge_fault digit start }
{
    match digit {
        48..=57 => Fault::new(FaultKind::NoSign, start + 1, 1),
        _ => Fault::new(FaultKind::NoDigit, start, 1),
    }
}

pub fn charge(line: &[u8], at: Columns, faults: Faults) -> Got<i64>
    ensures { result ≡ specs.got_charge line.now at faults }
{
    let part = at.part(line);
    found_or(fine_charge(line, at), 0, faults, || {
        charge_fault(part[0], at.start)
    })
}
