// What C hosts call to write a line: numbers and byte slices alone, and one number for an answer.
ghost use Rattle.printer.specs.Sheets as sheets;
ghost use Rattle.writing.specs.Write as specs;

#[unsafe(no_mangle)]
pub extern "C" fn saltighedda_write_atom(
    hetero: u32,
    serial: u64,
    name: &[u8],
    alternate: &[u8],
    residue: &[u8],
    chain: &[u8],
    number: i64,
    insertion: &[u8],
    x: f64,
    y: f64,
    z: f64,
    occupancy: f64,
    bfactor: f64,
    segment: &[u8],
    element: &[u8],
    charge: i64,
    places: &[u8],
    out: &mut [u8],
) -> u64
    ensures { specs.Packs out.old (specs.atom_by hetero (sheets.label serial name.now alternate.now residue.now chain.now number insertion.now segment.now element.now charge) x y z occupancy bfactor places.now) result out.new }
{
    saltighedda::write::saltighedda_write_atom(
        hetero, serial, name, alternate, residue, chain, number, insertion, x, y, z, occupancy,
        bfactor, segment, element, charge, places, out,
    )
}

#[unsafe(no_mangle)]
pub extern "C" fn saltighedda_write_anisou(
    serial: u64,
    name: &[u8],
    alternate: &[u8],
    residue: &[u8],
    chain: &[u8],
    number: i64,
    insertion: &[u8],
    u11: f64,
    u22: f64,
    u33: f64,
    u12: f64,
    u13: f64,
    u23: f64,
    segment: &[u8],
    element: &[u8],
    charge: i64,
    out: &mut [u8],
) -> u64
    ensures { specs.Packs out.old (specs.anisou_by (sheets.label serial name.now alternate.now residue.now chain.now number insertion.now segment.now element.now charge) u11 u22 u33 u12 u13 u23) result out.new }
{
    saltighedda::write::saltighedda_write_anisou(
        serial, name, alternate, residue, chain, number, insertion, u11, u22, u33, u12, u13, u23,
        segment, element, charge, out,
    )
}

#[unsafe(no_mangle)]
pub extern "C" fn saltighedda_write_cell(
    a: f64,
    b: f64,
    c: f64,
    alpha: f64,
    beta: f64,
    gamma: f64,
    group: &[u8],
    z: u64,
    places: &[u8],
    out: &mut [u8],
) -> u64
    ensures { specs.Packs out.old (specs.cell_by a b c alpha beta gamma group.now z places.now) result out.new }
{
    saltighedda::write::saltighedda_write_cell(a, b, c, alpha, beta, gamma, group, z, places, out)
}

// Serial and given count for MTRIX alone.
#[unsafe(no_mangle)]
pub extern "C" fn saltighedda_write_row(
    family: u32,
    row: u64,
    serial: u64,
    a: f64,
    b: f64,
    c: f64,
    d: f64,
    given: u32,
    places: &[u8],
    out: &mut [u8],
) -> u64
    ensures { specs.Packs out.old (specs.row_by family row serial a b c d given places.now) result out.new }
{
    saltighedda::write::saltighedda_write_row(family, row, serial, a, b, c, d, given, places, out)
}

#[unsafe(no_mangle)]
pub extern "C" fn saltighedda_write_model(number: u64, out: &mut [u8]) -> u64
    ensures { specs.Packs out.old (sheets.model_sheet number) result out.new }
{
    saltighedda::write::saltighedda_write_model(number, out)
}

#[unsafe(no_mangle)]
pub extern "C" fn saltighedda_write_bare(which: u32, out: &mut [u8]) -> u64
    ensures { specs.Packs out.old (specs.bare_by which) result out.new }
{
    saltighedda::write::saltighedda_write_bare(which, out)
}
