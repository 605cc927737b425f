// The faults of an answer. Each knows its line and the kind of its record, so that faults of many lines can stand in one list.
ghost use Rattle.std.specs.Prelude.{◌≡◌, get_or};
ghost use Rattle.line.specs.Faults.{blank_fault};
ghost use Rattle.lexitem.specs.Fault as specs;

use kind::Kind;
use line::fault::{Fault, FaultKind, Faults};

#[derive(Clone, Copy)]
pub struct LineFault {
    // As it was handed in with the line.
    pub line: usize,
    pub kind: Kind,
    pub fault: Fault,
}

// What stands in a place of a list, blank behind its end.
fn picked(list: [Fault; Faults::MOST], n: usize) -> Fault
    ensures { result ≡ get_or list n blank_fault }
{
    if n < Faults::MOST {
        return list[n];
    }
    Fault::new(FaultKind::Short, 0, 0)
}

// The first `count` of the list, in their order, each of this line and kind. Both stand here once, since a line's faults have them in common.
#[derive(Clone, Copy)]
pub struct LineFaults {
    pub line: usize,
    pub kind: Kind,
    pub list: [Fault; Faults::MOST],
    pub count: usize,
}

impl LineFaults {
    pub fn none() -> Self
        ensures { result ≡ specs.no_line_faults }
    {
        LineFaults::of(0, Kind::Empty, Faults::none())
    }

    // Line and kind are put to faults in this place alone: readers note columns.
    pub fn of(line: usize, kind: Kind, faults: Faults) -> Self
        ensures { result ≡ specs.stamped_as line kind faults }
    {
        let list = faults.list;
        LineFaults {
            line,
            kind,
            list,
            count: faults.count,
        }
    }

    // The n-th, from 0 on. Behind the last there are blank ones.
    pub fn at(self, n: usize) -> LineFault
        ensures { result ≡ specs.told_at_of self n }
    {
        let line = self.line;
        let kind = self.kind;
        let list = self.list;
        if n < self.count {
            return LineFault {
                line,
                kind,
                fault: picked(list, n),
            };
        }
        LineFault {
            line: 0,
            kind: Kind::Empty,
            fault: Fault::new(FaultKind::Short, 0, 0),
        }
    }
}
