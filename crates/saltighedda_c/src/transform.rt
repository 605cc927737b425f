// What C hosts call to collect rows and to move a position by them. The rows are lent: twelve doubles, row by row, and three bytes that say which
// of them are set.
ghost use Rattle.moving.specs.Matrix as specs;

#[unsafe(no_mangle)]
pub extern "C" fn saltighedda_matrix_row(
    row: u64,
    a: f64,
    b: f64,
    c: f64,
    d: f64,
    rows: &mut [f64],
    set: &mut [u8],
) -> u64
    ensures { specs.Collects rows.old set.old row (record { a = a; b = b; c = c; d = d }) result rows.new set.new }
{
    saltighedda::transform::saltighedda_matrix_row(row, a, b, c, d, rows, set)
}

#[unsafe(no_mangle)]
pub extern "C" fn saltighedda_apply(
    rows: &[f64],
    set: &[u8],
    x: f64,
    y: f64,
    z: f64,
    out: &mut [f64],
) -> u64
    ensures { specs.Applies (specs.handed_by rows.now set.now) (record { x = x; y = y; z = z }) out.old result out.new }
{
    saltighedda::transform::saltighedda_apply(rows, set, x, y, z, out)
}
