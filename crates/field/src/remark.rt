// The remark number's look-up in the lent table.
ghost use Rattle.std.specs.Prelude.{◌≡◌};
ghost use Rattle.field.specs.Remark as specs;

use line::columns::Columns;
use line::fault::{Fault, FaultKind, Faults};

// Whether a number is in the remark table.
fn is_known(remarks: &[u8], number: u64) -> bool
    ensures { result ≡ specs.is_known remarks.now number }
{
    remarks
        .get(number as usize)
        .is_some_and(|valid| *valid != 0)
}

// The look-up of the number that stands in the columns.
pub fn known(remarks: &[u8], number: u64, at: Columns, faults: Faults) -> Faults
    ensures { result ≡ specs.known_noted remarks.now number at faults }
{
    if is_known(remarks, number) {
        return faults;
    }
    faults.note(Fault::new(FaultKind::Unknown, at.start, at.width()))
}
