// What is held over of an unfinished line, beside the lent bytes that keep it.
ghost use Rattle.std.specs.Prelude.{◌≡◌};
ghost use Rattle.carry.specs.Held as specs;

// How many bytes of a line came, whether the last one is a CR, and the line's number. The count is no length of the kept bytes, since it also counts
// those that had no room.
#[derive(Clone, Copy)]
pub struct Held {
    pub total: usize,
    pub cr: bool,
    pub number: usize,
}

impl Held {
    // Nothing of a line that has a number.
    pub fn none(number: usize) -> Self
        ensures { result ≡ specs.none number }
    {
        Held {
            total: 0,
            cr: false,
            number,
        }
    }

    // How many bytes the line has if an LF ends it here.
    pub fn ended_size(self) -> usize
        ensures { result ≡ specs.ended_size self }
    {
        if self.total == 0 {
            return 0;
        }
        if self.cr {
            return self.total - 1;
        }
        self.total
    }
}
