// DBREF, DBREF1 and DBREF2. Each is a type of its own, since it has fields and columns that the others lack.
ghost use Rattle.std.specs.Prelude.{◌≡◌};
ghost use Rattle.dbref.specs.Dbref as specs;

use line::columns::Columns;
use line::options::Mode;
use line::text::{Character, Text};

// Where a stretch of a sequence begins and ends. The characters are insertion codes.
#[derive(Clone, Copy)]
pub struct Segment {
    pub begin: i64,
    pub opening: Character,
    pub end: i64,
    pub closing: Character,
}

impl Segment {
    pub fn new(begin: i64, opening: Character, end: i64, closing: Character) -> Self
        ensures { result ≡ record { begin = begin; opening = opening; end = end; closing = closing } }
    {
        Segment {
            begin,
            opening,
            end,
            closing,
        }
    }
}

// The columns of a segment.
#[derive(Clone, Copy)]
pub struct SegmentAt {
    pub begin: Columns,
    pub opening: u16,
    pub end: Columns,
    pub closing: u16,
}

// A DBREF.
#[derive(Clone, Copy)]
pub struct Dbref {
    pub code: Text,
    pub chain: Text,
    pub segment: Segment,
    pub database: Text,
    pub accession: Text,
    pub name: Text,
    pub target: Segment,
}

impl Dbref {
    pub const CODE: Columns = Columns { start: 7, end: 11 };

    pub const CHAIN: Columns = Columns { start: 12, end: 13 };

    pub const SEGMENT: SegmentAt = SegmentAt {
        begin: Columns { start: 14, end: 18 },
        opening: 18,
        end: Columns { start: 20, end: 24 },
        closing: 24,
    };

    pub const DATABASE: Columns = Columns { start: 26, end: 32 };

    pub const ACCESSION: Columns = Columns { start: 33, end: 41 };

    pub const NAME: Columns = Columns { start: 42, end: 54 };

    pub const TARGET: SegmentAt = SegmentAt {
        begin: Columns { start: 55, end: 60 },
        opening: 60,
        end: Columns { start: 62, end: 67 },
        closing: 67,
    };

    pub fn new(
        code: Text,
        chain: Text,
        segment: Segment,
        database: Text,
        accession: Text,
        name: Text,
        target: Segment,
    ) -> Self
        ensures { result ≡ record { code = code; chain = chain; segment = segment; database = database; accession = accession; name = name; target = target } }
    {
        Dbref {
            code,
            chain,
            segment,
            database,
            accession,
            name,
            target,
        }
    }
}

// A DBREF1 and the mode by which it was read: in crate mode the number of its segment's end begins a column later than a DBREF's.
#[derive(Clone, Copy)]
pub struct Dbref1 {
    pub code: Text,
    pub chain: Text,
    pub segment: Segment,
    pub database: Text,
    pub name: Text,
    pub mode: Mode,
}

impl Dbref1 {
    pub const END: Columns = Columns { start: 21, end: 24 };

    pub const NAME: Columns = Columns { start: 47, end: 67 };

    pub fn new(
        code: Text,
        chain: Text,
        segment: Segment,
        database: Text,
        name: Text,
        mode: Mode,
    ) -> Self
        ensures { result ≡ record { code = code; chain = chain; segment = segment; database = database; name = name; mode = mode } }
    {
        Dbref1 {
            code,
            chain,
            segment,
            database,
            name,
            mode,
        }
    }

    // The columns of its segment's end.
    pub fn end(mode: Mode) -> Columns
        ensures { result ≡ specs.end_by mode }
    {
        match mode {
            Mode::Crate => Dbref1::END,
            Mode::WwPdb => Dbref::SEGMENT.end,
        }
    }
}

// A DBREF2.
#[derive(Clone, Copy)]
pub struct Dbref2 {
    pub code: Text,
    pub chain: Text,
    pub accession: Text,
    pub begin: i64,
    pub end: i64,
}

impl Dbref2 {
    pub const ACCESSION: Columns = Columns { start: 18, end: 40 };

    pub const BEGIN: Columns = Columns { start: 45, end: 55 };

    pub const END: Columns = Columns { start: 57, end: 67 };

    pub fn new(code: Text, chain: Text, accession: Text, begin: i64, end: i64) -> Self
        ensures { result ≡ record { code = code; chain = chain; accession = accession; begin = begin; end = end } }
    {
        Dbref2 {
            code,
            chain,
            accession,
            begin,
            end,
        }
    }
}
