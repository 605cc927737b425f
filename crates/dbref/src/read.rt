// DBREF, DBREF1 and DBREF2.
ghost use Rattle.std.specs.Prelude.{◌≡◌};
ghost use Rattle.line.specs.Given.{alone, in_mode};
ghost use Rattle.dbref.specs.Dbref as specs;

use crate::record::{Dbref, Dbref1, Dbref2, Segment, SegmentAt};
use field::number_field::signed;
use field::text_field::{character, text};
use line::fault::{Faults, Got};
use line::options::Mode;

// Where a stretch begins and ends, each with its insertion code.
fn lex_segment(line: &[u8], at: SegmentAt, faults: Faults) -> Got<Segment>
    ensures { result ≡ specs.got_segment line.now at faults }
{
    let begin = signed(line, at.begin, faults);
    let opening = character(line, at.opening, begin.faults);
    let end = signed(line, at.end, opening.faults);
    let closing = character(line, at.closing, end.faults);
    Got {
        value: Segment::new(begin.value, opening.value, end.value, closing.value),
        faults: closing.faults,
    }
}

pub fn lex_dbref(line: &[u8]) -> Got<Dbref>
    ensures { result ≡ specs.got_dbref (alone line.now) }
{
    let code = text(line, Dbref::CODE, Faults::none());
    let chain = text(line, Dbref::CHAIN, code.faults);
    let segment = lex_segment(line, Dbref::SEGMENT, chain.faults);
    let database = text(line, Dbref::DATABASE, segment.faults);
    let accession = text(line, Dbref::ACCESSION, database.faults);
    let name = text(line, Dbref::NAME, accession.faults);
    let target = lex_segment(line, Dbref::TARGET, name.faults);
    let dbref = Dbref::new(
        code.value,
        chain.value,
        segment.value,
        database.value,
        accession.value,
        name.value,
        target.value,
    );
    Got {
        value: dbref,
        faults: target.faults,
    }
}

pub fn lex_dbref1(line: &[u8], mode: Mode) -> Got<Dbref1>
    ensures { result ≡ specs.got_dbref1 (in_mode mode line.now) }
{
    let code = text(line, Dbref::CODE, Faults::none());
    let chain = text(line, Dbref::CHAIN, code.faults);
    let at = SegmentAt {
        end: Dbref1::end(mode),
        ..Dbref::SEGMENT
    };
    let segment = lex_segment(line, at, chain.faults);
    let database = text(line, Dbref::DATABASE, segment.faults);
    let name = text(line, Dbref1::NAME, database.faults);
    let dbref = Dbref1::new(
        code.value,
        chain.value,
        segment.value,
        database.value,
        name.value,
        mode,
    );
    Got {
        value: dbref,
        faults: name.faults,
    }
}

pub fn lex_dbref2(line: &[u8]) -> Got<Dbref2>
    ensures { result ≡ specs.got_dbref2 (alone line.now) }
{
    let code = text(line, Dbref::CODE, Faults::none());
    let chain = text(line, Dbref::CHAIN, code.faults);
    let accession = text(line, Dbref2::ACCESSION, chain.faults);
    let begin = signed(line, Dbref2::BEGIN, accession.faults);
    let end = signed(line, Dbref2::END, begin.faults);
    let dbref = Dbref2::new(
        code.value,
        chain.value,
        accession.value,
        begin.value,
        end.value,
    );
    Got {
        value: dbref,
        faults: end.faults,
    }
}
