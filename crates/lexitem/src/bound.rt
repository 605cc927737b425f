// What a kind asks of its line.
ghost use Rattle.std.specs.Prelude.{◌≡◌};
ghost use Rattle.lexitem.specs.Describe as specs;

use crystal::record::Crystal;
use kind::Kind;
use modres::record::Modres;
use seqadv::record::Seqadv;
use ssbond::record::SSBond;

// HEADER asks for all of its columns, REMARK for not too many, some kinds for a least length, the rest for nothing.
#[derive(Clone, Copy)]
pub enum Bound {
    Header,
    Remark,
    Least(usize),
    Free,
}

pub fn bound_of(kind: Kind) -> Bound
    ensures { result ≡ specs.bound_of kind }
{
    match kind {
        Kind::Header => Bound::Header,
        Kind::Remark => Bound::Remark,
        Kind::Cryst1 => Bound::Least(Crystal::SPACEGROUP.start as usize),
        Kind::Seqadv => Bound::Least(Seqadv::COMMENT as usize),
        Kind::Modres => Bound::Least(Modres::COMMENT as usize),
        Kind::Ssbond => Bound::Least(SSBond::SECOND.insertion as usize + 1),
        _ => Bound::Free,
    }
}
