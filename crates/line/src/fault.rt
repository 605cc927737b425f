// Faults: what could not be read, and where. A list with room for all that a line can have goes beside the record, by value.
ghost use Rattle.std.specs.Prelude.{◌≡◌};
ghost use Rattle.line.specs.Faults.{number_of, no_faults, noted};

// The sort of number that the columns should have held.
#[derive(Clone, Copy)]
pub enum Sort {
    Unsigned,
    Signed,
    Real,
}

#[derive(Clone, Copy)]
pub enum FaultKind {
    // The line ends before the field's last column.
    Short,
    // Text of the wrong sort.
    Wrong(Sort),
    // A charge that doesn't begin with a digit.
    NoDigit,
    // A charge without its sign.
    NoSign,
    // A remark number that isn't in the table.
    Unknown,
}

impl FaultKind {
    // Document 01's number.
    pub fn number(self) -> usize
        ensures { result ≡ number_of self }
    {
        match self {
            FaultKind::Short => 1,
            FaultKind::Wrong(_) => 2,
            FaultKind::NoDigit => 3,
            FaultKind::NoSign => 4,
            FaultKind::Unknown => 5,
        }
    }
}

// Place and length are the field's columns. Lines that are read have at most 1,024 bytes, so 16 bits hold both.
#[derive(Clone, Copy)]
pub struct Fault {
    pub kind: FaultKind,
    pub place: u16,
    pub length: u16,
}

impl Fault {
    pub fn new(kind: FaultKind, place: u16, length: u16) -> Self
        ensures { result ≡ record { kind = kind; place = place; length = length } }
    {
        Fault {
            kind,
            place,
            length,
        }
    }
}

// The faults noted: the first `count` of the list, in their order. An array and a count, since the list is handed over by value
// beside the record, to C hosts too, and nothing here allocates (document 01).
#[derive(Clone, Copy)]
pub struct Faults {
    pub list: [Fault; Faults::MOST],
    pub count: usize,
}

impl Faults {
    // No line has more, of any kind and in any mode: that is a law over the kinds' tables, and no reader has a branch for it.
    pub const MOST: usize = 15;

    pub fn none() -> Self
        ensures { result ≡ no_faults }
    {
        let blank = Fault::new(FaultKind::Short, 0, 0);
        Faults {
            list: [blank; Faults::MOST],
            count: 0,
        }
    }

    // How a reader puts a fault in: behind the others. A list that is full stays as it is.
    pub fn note(self, fault: Fault) -> Self
        ensures { result ≡ noted self fault }
    {
        let at = self.count;
        let mut faults = self;
        if at < Faults::MOST {
            faults.list[at] = fault;
            faults.count = at + 1;
            return faults;
        }
        faults
    }
}

// What was read, and the faults noted on the way.
#[derive(Clone, Copy)]
pub struct Got<T> {
    pub value: T,
    pub faults: Faults,
}

impl<T> Got<T> {
    // What f makes of the value, with the same faults.
    pub fn map<U, F: FnOnce(T) -> U>(self, f: F) -> Got<U>
        requires { F.pre f self.value }
        ensures value { F.post f self.value result.value }
        ensures faults { result.faults ≡ self.faults }
    {
        Got {
            value: f(self.value),
            faults: self.faults,
        }
    }
}

#[cfg(test)]
mod tests {
    use super::*;

    // A number that was read becomes another sort of value, and its fault stays with it.
    #[test]
    fn map_keeps_faults(rt: HostRuntime) {
        let short = Fault::new(FaultKind::Short, 6, 5);
        let got = Got {
            value: 7u8,
            faults: Faults::none().note(short),
        };
        let mapped = got.map(|value| (value == 7, u16::from(value) * 100));
        let (same, hundreds) = mapped.value;
        assert!(rt; same);
        assert_eq!(rt; hundreds, 700);
        assert_eq!(rt; mapped.faults.count, 1);
        assert_eq!(rt; mapped.faults.list[0].place, 6);
        assert_eq!(rt; mapped.faults.list[0].length, 5);
        assert_eq!(rt; mapped.faults.list[0].kind.number(), 1);
    }
}
