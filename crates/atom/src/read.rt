// ATOM, HETATM and ANISOU. The coordinates' faults come before those of what the kinds share, as lexer.rs reads them first.
// Nearly every line of a file is an atom without a fault, so an atom is read without a list of faults first. Only if a field
// isn't fine is it read again, with the list going through, and with exponents where they are asked for. What the quick path calls is
// compiled into it, so that the columns are known there.
ghost use Rattle.std.specs.Prelude.{◌≡◌, false};
ghost use Rattle.field.specs.Number.{fine_unsigned, fine_signed, fine_real};
ghost use Rattle.field.specs.Table.{line_noted, table_noted};
ghost use Rattle.line.specs.Given.{alone, taking};
ghost use Rattle.atom.specs.Atom.Field.{serial, number};
ghost use Rattle.atom.specs.Atom as specs;

use crate::record::{Anisou, Atom, AtomPlaces, Basics, Factors, Position, PositionPlaces};
use field::charge::{charge, fine_charge};
use field::number_field::{factor, fine_real, fine_signed, fine_unsigned, real, signed, unsigned};
use field::quick::{signed_four, unsigned_five};
use field::text_field::{character, fine_character, fine_optional, fine_text, optional, text};
use line::columns::Columns;
use line::fault::{Faults, Got};
use number::word::{eight, five, four, read_word, six};
use real::{Real, coded};

// Three coordinates, with the places of each.
#[derive(Clone, Copy)]
pub struct Placed {
    pub position: Position,
    pub places: PositionPlaces,
}

// The coordinates that three reals are.
fn placed_of(x: Real, y: Real, z: Real) -> Placed
    ensures { result ≡ record { position = record { x = x.value; y = y.value; z = z.value }; places = record { x = x.places; y = y.places; z = z.places } } }
{
    Placed {
        position: Position::new(x.value, y.value, z.value),
        places: PositionPlaces {
            x: x.places,
            y: y.places,
            z: z.places,
        },
    }
}

// The atom of its parts.
fn atom_of(hetero: bool, basics: Basics, placed: Placed, occupancy: Real, bfactor: Real) -> Atom
    ensures { result ≡ record { hetero = hetero; basics = basics; position = placed.position; occupancy = occupancy.value; bfactor = bfactor.value; places = record { position = placed.places; occupancy = occupancy.places; bfactor = bfactor.places } } }
{
    let position = placed.position;
    let coordinates = placed.places;
    let places = AtomPlaces {
        position: coordinates,
        occupancy: occupancy.places,
        bfactor: bfactor.places,
    };
    Atom::new(
        hetero,
        basics,
        position,
        occupancy.value,
        bfactor.value,
        places,
    )
}

// What ATOM, HETATM and ANISOU share.
fn lex_atom_basics(line: &[u8], faults: Faults) -> Got<Basics>
    ensures { result ≡ record { value = specs.basics_of line.now; faults = line_noted line.now specs.basics_table faults } }
{
    let serial = unsigned(line, Basics::SERIAL, faults);
    let name = text(line, Basics::NAME, serial.faults);
    let alternate = optional(line, Basics::ALTERNATE, name.faults);
    let residue = text(line, Basics::RESIDUE, alternate.faults);
    let chain = character(line, Basics::CHAIN, residue.faults);
    let number = signed(line, Basics::NUMBER, chain.faults);
    let insertion = optional(line, Basics::INSERTION, number.faults);
    let segment = text(line, Basics::SEGMENT, insertion.faults);
    let element = text(line, Basics::ELEMENT, segment.faults);
    let charge = charge(line, Basics::CHARGE, element.faults);
    let location = alternate.value;
    let of = chain.value;
    let inserted = insertion.value;
    let value = Basics::new(
        serial.value,
        name.value,
        location,
        residue.value,
        of,
        number.value,
        inserted,
        segment.value,
        element.value,
        charge.value,
    );
    Got {
        value,
        faults: charge.faults,
    }
}

fn lex_position(line: &[u8], exponents: bool, faults: Faults) -> Got<Placed>
    ensures { result ≡ record { value = specs.placed_of exponents line.now; faults = table_noted (taking exponents line.now) specs.position_table faults } }
{
    let x = real(line, Position::X, 0.0, exponents, faults);
    let y = real(line, Position::Y, 0.0, exponents, x.faults);
    let z = real(line, Position::Z, 0.0, exponents, y.faults);
    Got {
        value: placed_of(x.value, y.value, z.value),
        faults: z.faults,
    }
}

// An atom, with the list going through.
fn lex_atom_noted(line: &[u8], hetero: bool, exponents: bool) -> Got<Atom>
    ensures { result ≡ specs.got_atom hetero (taking exponents line.now) }
{
    let position = lex_position(line, exponents, Faults::none());
    let occupancy = real(
        line,
        Atom::OCCUPANCY,
        Atom::OCCUPANCY_DEFAULT,
        exponents,
        position.faults,
    );
    let bfactor = real(line, Atom::BFACTOR, 0.0, exponents, occupancy.faults);
    let basics = lex_atom_basics(line, bfactor.faults);
    Got {
        value: atom_of(
            hetero,
            basics.value,
            position.value,
            occupancy.value,
            bfactor.value,
        ),
        faults: basics.faults,
    }
}

#[inline(always)]
fn quick_serial(line: &[u8]) -> Option<u64>
    ensures { result ≡ fine_unsigned line.now (specs.at serial) }
{
    unsigned_five(read_word(five(Basics::SERIAL.part(line)))).or_else(|| fine_unsigned(
        line,
        Basics::SERIAL,
    ))
}

#[inline(always)]
fn quick_number(line: &[u8]) -> Option<i64>
    ensures { result ≡ fine_signed line.now (specs.at number) }
{
    signed_four(read_word(four(Basics::NUMBER.part(line)))).or_else(|| fine_signed(
        line,
        Basics::NUMBER,
    ))
}

// A coordinate, which has eight columns and three digits behind its point in nearly every line.
#[inline(always)]
fn quick_coordinate(line: &[u8], at: Columns) -> Option<Real>
    ensures { result ≡ fine_real false line.now at }
{
    coded::<3>(read_word(eight(at.part(line)))).or_else(|| fine_real(line, at))
}

// An occupancy or a temperature factor, which has six and two.
#[inline(always)]
fn quick_share(line: &[u8], at: Columns) -> Option<Real>
    ensures { result ≡ fine_real false line.now at }
{
    coded::<2>(read_word(six(at.part(line)))).or_else(|| fine_real(line, at))
}

// What the kinds share, of a line that reaches past the element: the one test spares each field its own.
fn quick_basics(line: &[u8]) -> Option<Basics>
    ensures { specs.SaysBasics line.now result }
{
    if line.len() < Basics::ELEMENT.end as usize {
        return None;
    }
    let serial = quick_serial(line)?;
    let name = fine_text(line, Basics::NAME)?;
    let alternate = fine_optional(line, Basics::ALTERNATE)?;
    let residue = fine_text(line, Basics::RESIDUE)?;
    let chain = fine_character(line, Basics::CHAIN)?;
    let number = quick_number(line)?;
    let insertion = fine_optional(line, Basics::INSERTION)?;
    let segment = fine_text(line, Basics::SEGMENT)?;
    let element = fine_text(line, Basics::ELEMENT)?;
    let charge = fine_charge(line, Basics::CHARGE)?;
    Some(Basics::new(
        serial, name, alternate, residue, chain, number, insertion, segment, element, charge,
    ))
}

fn quick_position(line: &[u8]) -> Option<Placed>
    ensures { specs.SaysPosition line.now result }
{
    let x = quick_coordinate(line, Position::X)?;
    let y = quick_coordinate(line, Position::Y)?;
    let z = quick_coordinate(line, Position::Z)?;
    Some(placed_of(x, y, z))
}

fn quick_atom(line: &[u8], hetero: bool) -> Option<Atom>
    ensures { specs.SaysAtom hetero line.now result }
{
    let placed = quick_position(line)?;
    let occupancy = quick_share(line, Atom::OCCUPANCY)?;
    let bfactor = quick_share(line, Atom::BFACTOR)?;
    let basics = quick_basics(line)?;
    Some(atom_of(hetero, basics, placed, occupancy, bfactor))
}

// A line that ends before the element has faults, and isn't read twice. A plain decimal is the same with exponents and without, so the same quick
// reading serves both. What was noted goes by a name, and no match ends the function: either would copy the record once more.
pub fn lex_atom(line: &[u8], hetero: bool, exponents: bool) -> Got<Atom>
    ensures { result ≡ specs.got_atom hetero (taking exponents line.now) }
{
    if line.len() < Basics::ELEMENT.end as usize {
        let noted = lex_atom_noted(line, hetero, exponents);
        return noted;
    }
    if let Some(value) = quick_atom(line, hetero) {
        return Got {
            value,
            faults: Faults::none(),
        };
    }
    let noted = lex_atom_noted(line, hetero, exponents);
    noted
}

fn lex_factors(line: &[u8], faults: Faults) -> Got<Factors>
    ensures { result ≡ record { value = specs.factors_of line.now; faults = line_noted line.now specs.factors_table faults } }
{
    let u11 = factor(line, Factors::U11, faults);
    let u22 = factor(line, Factors::U22, u11.faults);
    let u33 = factor(line, Factors::U33, u22.faults);
    let u12 = factor(line, Factors::U12, u33.faults);
    let u13 = factor(line, Factors::U13, u12.faults);
    let u23 = factor(line, Factors::U23, u13.faults);
    Got {
        value: Factors::new(
            u11.value, u22.value, u33.value, u12.value, u13.value, u23.value,
        ),
        faults: u23.faults,
    }
}

pub fn lex_anisou(line: &[u8]) -> Got<Anisou>
    ensures { result ≡ specs.got_anisou (alone line.now) }
{
    let factors = lex_factors(line, Faults::none());
    let basics = lex_atom_basics(line, factors.faults);
    Got {
        value: Anisou::new(basics.value, factors.value),
        faults: basics.faults,
    }
}
