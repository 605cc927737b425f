// How the faults of a listing are put.
ghost use Rattle.std.specs.Prelude.{◌≡◌, ◌≤◌, take};
ghost use Rattle.layout.specs.Fault.{faults_bytes};
ghost use Rattle.page.specs.Page.{page, put};

use layout::fault::put_fault;
use lexitem::fault::LineFaults;

pub(crate) fn put_faults(out: &mut [u8], at: usize, faults: LineFaults) -> usize
    requires { faults.count ≤ 15 }
    ensures { page out.new result ≡ put (page out.old at) (faults_bytes (take faults.count faults.list)) }
{
    let mut next = at;
    for fault in &faults.list[..faults.count] {
        next = put_fault(out, next, *fault);
    }
    next
}
