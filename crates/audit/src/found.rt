// What was found as words: which of the twelve numbers differ, what was counted, and what MASTER says.
ghost use Rattle.std.specs.Prelude.{◌≡◌};
ghost use Rattle.audit.specs.Found.{found_in_of};

use crate::Compared;
use tally::compare::differing;

pub fn found_in(compared: Compared) -> [u64; 25]
    ensures { result ≡ found_in_of compared }
{
    let counted = compared.counted;
    let said = compared.said;
    [
        differing(counted, said),
        counted.remark,
        0,
        counted.het,
        counted.helix,
        counted.sheet,
        counted.turn,
        counted.site,
        counted.xform,
        counted.coord,
        counted.ter,
        counted.connect,
        counted.seq,
        said.remark,
        said.empty,
        said.het,
        said.helix,
        said.sheet,
        said.turn,
        said.site,
        said.xform,
        said.coord,
        said.ter,
        said.connect,
        said.seq,
    ]
}
