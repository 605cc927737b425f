// The rows of DBREF, DBREF1 and DBREF2.
ghost use Rattle.std.specs.Prelude.{◌≡◌};
ghost use Rattle.row.specs.Rows.{rows_of};
ghost use Rattle.dbref.specs.Dbref.{segment_fields, dbref_fields, dbref1_fields, dbref2_fields};

use crate::record::{Dbref, Dbref1, Dbref2, Segment, SegmentAt};
use row::{Row, Rows, Value};

// Those of a segment.
fn segment_rows(at: SegmentAt, segment: Segment) -> [Row; 4]
    ensures { result ≡ segment_fields at segment }
{
    [
        Row(at.begin.start, Value::Signed(segment.begin)),
        Row(at.opening, Value::One(segment.opening)),
        Row(at.end.start, Value::Signed(segment.end)),
        Row(at.closing, Value::One(segment.closing)),
    ]
}

pub fn dbref_rows(dbref: Dbref) -> Rows
    ensures { result ≡ rows_of (dbref_fields dbref) }
{
    let [begin, opening, end, closing] = segment_rows(Dbref::SEGMENT, dbref.segment);
    let [target_begin, target_opening, target_end, target_closing] = segment_rows(
        Dbref::TARGET,
        dbref.target,
    );
    Rows::of(&[
        Row(Dbref::CODE.start, Value::Words(dbref.code)),
        Row(Dbref::CHAIN.start, Value::Words(dbref.chain)),
        begin,
        opening,
        end,
        closing,
        Row(Dbref::DATABASE.start, Value::Words(dbref.database)),
        Row(Dbref::ACCESSION.start, Value::Words(dbref.accession)),
        Row(Dbref::NAME.start, Value::Words(dbref.name)),
        target_begin,
        target_opening,
        target_end,
        target_closing,
    ])
}

pub fn dbref1_rows(dbref1: Dbref1) -> Rows
    ensures { result ≡ rows_of (dbref1_fields dbref1) }
{
    let at = SegmentAt {
        end: Dbref1::end(dbref1.mode),
        ..Dbref::SEGMENT
    };
    let [begin, opening, end, closing] = segment_rows(at, dbref1.segment);
    Rows::of(&[
        Row(Dbref::CODE.start, Value::Words(dbref1.code)),
        Row(Dbref::CHAIN.start, Value::Words(dbref1.chain)),
        begin,
        opening,
        end,
        closing,
        Row(Dbref::DATABASE.start, Value::Words(dbref1.database)),
        Row(Dbref1::NAME.start, Value::Words(dbref1.name)),
    ])
}

pub fn dbref2_rows(dbref2: Dbref2) -> Rows
    ensures { result ≡ rows_of (dbref2_fields dbref2) }
{
    Rows::of(&[
        Row(Dbref::CODE.start, Value::Words(dbref2.code)),
        Row(Dbref::CHAIN.start, Value::Words(dbref2.chain)),
        Row(Dbref2::ACCESSION.start, Value::Words(dbref2.accession)),
        Row(Dbref2::BEGIN.start, Value::Signed(dbref2.begin)),
        Row(Dbref2::END.start, Value::Signed(dbref2.end)),
    ])
}
