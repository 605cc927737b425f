// MASTER.
ghost use Rattle.std.specs.Prelude.{◌≡◌};

use line::columns::Columns;

// A MASTER: twelve counts.
#[derive(Clone, Copy)]
pub struct Master {
    pub remark: u64,
    pub empty: u64,
    pub het: u64,
    pub helix: u64,
    pub sheet: u64,
    pub turn: u64,
    pub site: u64,
    pub xform: u64,
    pub coord: u64,
    pub ter: u64,
    pub connect: u64,
    pub seq: u64,
}

impl Master {
    pub const REMARK: Columns = Columns { start: 10, end: 15 };

    pub const EMPTY: Columns = Columns { start: 15, end: 20 };

    pub const HET: Columns = Columns { start: 20, end: 25 };

    pub const HELIX: Columns = Columns { start: 25, end: 30 };

    pub const SHEET: Columns = Columns { start: 30, end: 35 };

    pub const TURN: Columns = Columns { start: 35, end: 40 };

    pub const SITE: Columns = Columns { start: 40, end: 45 };

    pub const XFORM: Columns = Columns { start: 45, end: 50 };

    pub const COORD: Columns = Columns { start: 50, end: 55 };

    pub const TER: Columns = Columns { start: 55, end: 60 };

    pub const CONNECT: Columns = Columns { start: 60, end: 65 };

    pub const SEQ: Columns = Columns { start: 65, end: 70 };

    pub fn new(
        remark: u64,
        empty: u64,
        het: u64,
        helix: u64,
        sheet: u64,
        turn: u64,
        site: u64,
        xform: u64,
        coord: u64,
        ter: u64,
        connect: u64,
        seq: u64,
    ) -> Self
        ensures { result ≡ record { remark = remark; empty = empty; het = het; helix = helix; sheet = sheet; turn = turn; site = site; xform = xform; coord = coord; ter = ter; connect = connect; seq = seq } }
    {
        Master {
            remark,
            empty,
            het,
            helix,
            sheet,
            turn,
            site,
            xform,
            coord,
            ter,
            connect,
            seq,
        }
    }
}
