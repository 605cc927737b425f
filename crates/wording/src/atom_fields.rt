// An atom's fields as words, put straight from its record: nearly every line of a file is an atom, and its rows would be made only to be taken
// apart. A part of the fields is put by a function each.
ghost use Rattle.std.specs.Prelude.{◌∷◌, [], ◌≤◌, ◌+◌, length};
ghost use Rattle.row.specs.Rows.{◌is◌};
ghost use Rattle.row.specs.declared.Value.TheVariants as value;
ghost use Rattle.atom.specs.Atom.{atom_fields};
ghost use Rattle.wording.specs.Fields as specs;
ghost use Rattle.wording.specs.Put.{Puts};

use crate::put::{put_character, put_two};
use crate::word::{head_word, signed_word, text_word};
use atom::record::{Atom, AtomPlaces, Basics, Position};
use line::text::{Character, Text};
use page::bits_of;

fn put_name(
    out: &mut [u64],
    at: usize,
    line: &[u8],
    serial: u64,
    name: Text,
    alternate: Character,
) -> usize
    requires { at + 6 ≤ length out.old }
    ensures { Puts out.old at (specs.rows_words line.now (6 is value.Unsigned serial ∷ 12 is value.Words name ∷ 16 is value.One alternate ∷ [])) result out.new }
{
    let second = put_two(out, at, head_word(Basics::SERIAL.start, 0, 0), serial);
    let third = put_two(
        out,
        second,
        head_word(Basics::NAME.start, 3, 0),
        text_word(name),
    );
    put_character(out, third, line, Basics::ALTERNATE, alternate)
}

fn put_residue(
    out: &mut [u64],
    at: usize,
    line: &[u8],
    residue: Text,
    chain: Character,
    number: i64,
    insertion: Character,
) -> usize
    requires { at + 8 ≤ length out.old }
    ensures { Puts out.old at (specs.rows_words line.now (17 is value.Words residue ∷ 21 is value.One chain ∷ 22 is value.Signed number ∷ 26 is value.One insertion ∷ [])) result out.new }
{
    let second = put_two(
        out,
        at,
        head_word(Basics::RESIDUE.start, 3, 0),
        text_word(residue),
    );
    let third = put_character(out, second, line, Basics::CHAIN, chain);
    let fourth = put_two(
        out,
        third,
        head_word(Basics::NUMBER.start, 1, 0),
        signed_word(number),
    );
    put_character(out, fourth, line, Basics::INSERTION, insertion)
}

// A real's column, its places and its bits.
fn put_real(out: &mut [u64], at: usize, column: u16, x: f64, places: u8) -> usize
    requires { at + 2 ≤ length out.old }
    ensures { Puts out.old at (specs.value_words [] column (value.Real x places)) result out.new }
{
    put_two(out, at, head_word(column, 2, places), bits_of(x))
}

fn put_reals(
    out: &mut [u64],
    at: usize,
    position: Position,
    occupancy: f64,
    bfactor: f64,
    places: AtomPlaces,
) -> usize
    requires { at + 10 ≤ length out.old }
    ensures { Puts out.old at (specs.rows_words [] (30 is value.Real position.x places.position.x ∷ 38 is value.Real position.y places.position.y ∷ 46 is value.Real position.z places.position.z ∷ 54 is value.Real occupancy places.occupancy ∷ 60 is value.Real bfactor places.bfactor ∷ [])) result out.new }
{
    let counts = places.position;
    let second = put_real(out, at, Position::X.start, position.x, counts.x);
    let third = put_real(out, second, Position::Y.start, position.y, counts.y);
    let fourth = put_real(out, third, Position::Z.start, position.z, counts.z);
    let fifth = put_real(
        out,
        fourth,
        Atom::OCCUPANCY.start,
        occupancy,
        places.occupancy,
    );
    put_real(out, fifth, Atom::BFACTOR.start, bfactor, places.bfactor)
}

fn put_end(out: &mut [u64], at: usize, segment: Text, element: Text, charge: i64) -> usize
    requires { at + 6 ≤ length out.old }
    ensures { Puts out.old at (specs.rows_words [] (72 is value.Words segment ∷ 76 is value.Words element ∷ 78 is value.Signed charge ∷ [])) result out.new }
{
    let second = put_two(
        out,
        at,
        head_word(Basics::SEGMENT.start, 3, 0),
        text_word(segment),
    );
    let third = put_two(
        out,
        second,
        head_word(Basics::ELEMENT.start, 3, 0),
        text_word(element),
    );
    put_two(
        out,
        third,
        head_word(Basics::CHARGE.start, 1, 0),
        signed_word(charge),
    )
}

// The words of an atom's fields, from a place on.
pub(crate) fn put_atom(out: &mut [u64], at: usize, line: &[u8], atom: Atom) -> usize
    requires { at + 30 ≤ length out.old }
    ensures { Puts out.old at (specs.rows_words line.now (atom_fields atom)) result out.new }
{
    let basics = atom.basics;
    let name = basics.name;
    let alternate = basics.alternate;
    let residue = basics.residue;
    let chain = basics.chain;
    let insertion = basics.insertion;
    let segment = basics.segment;
    let element = basics.element;
    let position = atom.position;
    let places = atom.places;
    let second = put_name(out, at, line, basics.serial, name, alternate);
    let third = put_residue(out, second, line, residue, chain, basics.number, insertion);
    let fourth = put_reals(out, third, position, atom.occupancy, atom.bfactor, places);
    put_end(out, fourth, segment, element, basics.charge)
}
