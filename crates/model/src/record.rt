// MODEL.
ghost use Rattle.std.specs.Prelude.{◌≡◌};
ghost use Rattle.model.specs.Model as specs;

use line::columns::Columns;
use line::options::Mode;

// A MODEL and the mode by which it was read: in crate mode its number stands from a column to the end of the line.
#[derive(Clone, Copy)]
pub struct Model {
    pub number: u64,
    pub mode: Mode,
}

impl Model {
    pub const NUMBER: u16 = 6;

    pub const SERIAL: Columns = Columns { start: 10, end: 14 };

    pub fn new(number: u64, mode: Mode) -> Self
        ensures { result ≡ record { number = number; mode = mode } }
    {
        Model { number, mode }
    }

    // The number's first column.
    pub fn column(mode: Mode) -> u16
        ensures { result ≡ specs.column_by mode }
    {
        match mode {
            Mode::Crate => Model::NUMBER,
            Mode::WwPdb => Model::SERIAL.start,
        }
    }
}
