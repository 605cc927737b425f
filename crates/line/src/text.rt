// Texts and characters of a line, held as places, and what a view of one shows.
ghost use Rattle.std.specs.Prelude.{◌≡◌};
ghost use Rattle.line.specs.Text.{view_of, within_of};

use crate::columns::from_column;

// A text: where it begins in the line and how many bytes it has. An empty one has place 0, length 0.
#[derive(Clone, Copy)]
pub struct Text {
    pub place: usize,
    pub length: usize,
}

impl Text {
    pub fn new(place: usize, length: usize) -> Self
        ensures { result ≡ record { place = place; length = length } }
    {
        Text { place, length }
    }
}

// One character: at a place of the line, in a column that the line doesn't reach, or absent.
#[derive(Clone, Copy)]
pub enum Character {
    At(usize),
    Unreached,
    Absent,
}

// A field that can be viewed.
#[derive(Clone, Copy)]
pub enum Field {
    Words(Text),
    One(Character),
}

// The bytes at a place, or none if they don't lie in the line.
fn within(line: &[u8], place: usize, length: usize) -> &[u8]
    ensures { result.now ≡ within_of line.now place length }
{
    from_column(line, place).get(..length).unwrap_or(&line[..0])
}

// The part of the line that a field is; for a character that the line doesn't reach, the stand-in.
pub fn view<'a>(line: &'a [u8], stand_in: &'a [u8], field: Field) -> &'a [u8]
    ensures { result.now ≡ view_of line.now stand_in.now field }
{
    match field {
        Field::Words(text) => within(line, text.place, text.length),
        Field::One(character) => match character {
            Character::At(place) => within(line, place, 1),
            Character::Unreached => stand_in,
            Character::Absent => &line[..0],
        },
    }
}
