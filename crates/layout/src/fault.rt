// How a fault is put.
ghost use Rattle.std.specs.Prelude.{◌≡◌};
ghost use Rattle.layout.specs.Fault.{fault_bytes};
ghost use Rattle.page.specs.Page.{page, put};

use crate::put_three;
use line::fault::Fault;

pub fn put_fault(out: &mut [u8], at: usize, fault: Fault) -> usize
    ensures { page out.new result ≡ put (page out.old at) (fault_bytes fault) }
{
    let kind = fault.kind;
    put_three(
        out,
        at,
        b"fault=",
        kind.number() as u64,
        fault.place as u64,
        fault.length as u64,
    )
}
