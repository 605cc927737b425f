// Columns of a line, counted from 0, the end excluded. Lines that are read have at most 1,024 bytes, so 16 bits
// hold every column.
ghost use Rattle.std.specs.Prelude.{◌≡◌, ◌-◌};
ghost use Rattle.line.specs.Columns.{part_of, reached_of, rest_of};

#[derive(Clone, Copy)]
pub struct Columns {
    pub start: u16,
    pub end: u16,
}

impl Columns {
    pub fn new(start: u16, end: u16) -> Self
        ensures { result ≡ record { start = start; end = end } }
    {
        Columns { start, end }
    }

    // How many columns there are.
    pub fn width(self) -> u16
        ensures { result ≡ self.end - self.start }
    {
        self.end.saturating_sub(self.start)
    }

    // The part of the line in these columns, empty where the line doesn't reach their end.
    pub fn part(self, line: &[u8]) -> &[u8]
        ensures { result.now ≡ part_of line.now self }
    {
        line.get(self.start as usize..self.end as usize)
            .unwrap_or(&line[..0])
    }

    // What the line reaches of these columns.
    pub fn reached(self, line: &[u8]) -> &[u8]
        ensures { result.now ≡ reached_of line.now self }
    {
        let rest = from_column(line, self.start as usize);
        rest.get(..self.width() as usize).unwrap_or(rest)
    }
}

// The line from a column on, empty past its end.
pub fn from_column(line: &[u8], start: usize) -> &[u8]
    ensures { result.now ≡ rest_of line.now start }
{
    line.get(start..).unwrap_or(&line[..0])
}
