// MASTER.
ghost use Rattle.std.specs.Prelude.{◌≡◌};
ghost use Rattle.line.specs.Given.{alone};
ghost use Rattle.master.specs.Master as specs;

use crate::record::Master;
use field::number_field::unsigned;
use line::fault::{Faults, Got};

pub fn lex_master(line: &[u8]) -> Got<Master>
    ensures { result ≡ specs.got_master (alone line.now) }
{
    let remark = unsigned(line, Master::REMARK, Faults::none());
    let empty = unsigned(line, Master::EMPTY, remark.faults);
    let het = unsigned(line, Master::HET, empty.faults);
    let helix = unsigned(line, Master::HELIX, het.faults);
    let sheet = unsigned(line, Master::SHEET, helix.faults);
    let turn = unsigned(line, Master::TURN, sheet.faults);
    let site = unsigned(line, Master::SITE, turn.faults);
    let xform = unsigned(line, Master::XFORM, site.faults);
    let coord = unsigned(line, Master::COORD, xform.faults);
    let ter = unsigned(line, Master::TER, coord.faults);
    let connect = unsigned(line, Master::CONNECT, ter.faults);
    let seq = unsigned(line, Master::SEQ, connect.faults);
    let master = Master::new(
        remark.value,
        empty.value,
        het.value,
        helix.value,
        sheet.value,
        turn.value,
        site.value,
        xform.value,
        coord.value,
        ter.value,
        connect.value,
        seq.value,
    );
    Got {
        value: master,
        faults: seq.faults,
    }
}
