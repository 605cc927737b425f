// MODEL, and the lines that are a name and blanks: TER, ENDMDL and END.
ghost use Rattle.std.specs.Prelude.{◌≡◌, [], ◌≤◌, length};
ghost use Rattle.printer.specs.Sheets as specs;
ghost use Rattle.sheet.specs.Sheet as sheets;

use line::columns::Columns;
use sheet::{Figure, Unwritten, begin, draw_figure, end, rule_off};

// Where a MODEL's number is written. It is read from the name on.
const NUMBER: Columns = Columns { start: 10, end: 14 };

pub fn write_model(number: u64, out: &mut [u8]) -> Result<(), Unwritten>
    ensures { sheets.Writes out.old (specs.model_sheet number) result out.new }
{
    let mut bytes = [0u8; 80];
    let named = begin(&mut bytes, b"MODEL ");
    let drawn = draw_figure(&mut bytes, named, NUMBER, Figure::Unsigned(number));
    let ruled = rule_off(&mut bytes, drawn);
    let miss = ruled.miss;
    end(out, &bytes, miss)
}

// The lines that are a name and blanks.
#[derive(Clone, Copy)]
pub enum Bare {
    Ter,
    Endmdl,
    End,
}

fn write_name(name: &[u8], out: &mut [u8]) -> Result<(), Unwritten>
    requires { length name.now ≤ 80 }
    ensures { sheets.Writes out.old (record { name = name.entry.now; cells = [] }) result out.new }
{
    let mut bytes = [0u8; 80];
    let named = begin(&mut bytes, name);
    let ruled = rule_off(&mut bytes, named);
    let miss = ruled.miss;
    end(out, &bytes, miss)
}

pub fn write_bare(bare: Bare, out: &mut [u8]) -> Result<(), Unwritten>
    ensures { sheets.Writes out.old (specs.bare_sheet bare) result out.new }
{
    match bare {
        Bare::Ter => write_name(b"TER   ", out),
        Bare::Endmdl => write_name(b"ENDMDL", out),
        Bare::End => write_name(b"END   ", out),
    }
}
