// CRYST1. Z is written only in a line that goes on behind the space group, and is 1 in any other.
ghost use Rattle.std.specs.Prelude.{◌≡◌};
ghost use Rattle.field.specs.Table.{table_noted};
ghost use Rattle.line.specs.Given.{taking};
ghost use Rattle.crystal.specs.Crystal as specs;

use crate::record::{Cell, CellPlaces, Crystal};
use field::number_field::{real, unsigned_from};
use field::text_field::text_within;
use line::fault::{Faults, Got};

// The cell with its numbers' places.
fn lex_cell(line: &[u8], exponents: bool, faults: Faults) -> Got<(Cell, CellPlaces)>
    ensures { result ≡ record { value = (specs.cell_of exponents line.now, specs.cell_places_of exponents line.now); faults = table_noted (taking exponents line.now) specs.cell_table faults } }
{
    let a = real(line, Cell::A, 0.0, exponents, faults);
    let b = real(line, Cell::B, 0.0, exponents, a.faults);
    let c = real(line, Cell::C, 0.0, exponents, b.faults);
    let alpha = real(line, Cell::ALPHA, 0.0, exponents, c.faults);
    let beta = real(line, Cell::BETA, 0.0, exponents, alpha.faults);
    let gamma = real(line, Cell::GAMMA, 0.0, exponents, beta.faults);
    let cell = Cell::new(
        a.value.value,
        b.value.value,
        c.value.value,
        alpha.value.value,
        beta.value.value,
        gamma.value.value,
    );
    let places = CellPlaces {
        a: a.value.places,
        b: b.value.places,
        c: c.value.places,
        alpha: alpha.value.places,
        beta: beta.value.places,
        gamma: gamma.value.places,
    };
    Got {
        value: (cell, places),
        faults: gamma.faults,
    }
}

fn lex_z(line: &[u8], faults: Faults) -> Got<u64>
    ensures { result ≡ specs.got_z line.now faults }
{
    if line.len() <= Crystal::Z as usize {
        return Got {
            value: Crystal::Z_DEFAULT,
            faults,
        };
    }
    unsigned_from(line, Crystal::Z, faults)
}

pub fn lex_cryst(line: &[u8], exponents: bool) -> Got<Crystal>
    ensures { result ≡ specs.got_crystal (taking exponents line.now) }
{
    let got = lex_cell(line, exponents, Faults::none());
    let (cell, places) = got.value;
    let spacegroup = text_within(line, Crystal::SPACEGROUP);
    let z = lex_z(line, got.faults);
    Got {
        value: Crystal::new(cell, places, spacegroup, z.value),
        faults: z.faults,
    }
}
