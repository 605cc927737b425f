// Which number of MASTER counts a line, by its first six bytes. A name is looked up as one number, its bytes being the digits.
ghost use Rattle.std.specs.Prelude.{◌≡◌, get_or};
ghost use Rattle.kind.specs.Key.{key_of};
ghost use Rattle.tally.specs.Names as specs;

// A byte of a line, or a blank past its end.
fn byte_or_blank(line: &[u8], i: usize) -> u8
    ensures { result ≡ get_or line.now i 32 }
{
    line.get(i).copied().unwrap_or(b' ')
}

// The first six bytes as a number, as if blanks followed the line.
fn name_key(line: &[u8]) -> u64
    ensures { result ≡ key_of (specs.padded 6 line.now) }
{
    u64::from_be_bytes([
        0,
        0,
        byte_or_blank(line, 0),
        byte_or_blank(line, 1),
        byte_or_blank(line, 2),
        byte_or_blank(line, 3),
        byte_or_blank(line, 4),
        byte_or_blank(line, 5),
    ])
}

// The names stand as numbers for the reason that `kind` has.
fn numbered(key: u64) -> Option<usize>
    ensures { result ≡ specs.number_by_key key specs.names }
{
    let number = match key {
        0x52454d41524b => 0, // REMARK
        0x484554202020 => 2, // HET
        0x48454c495820 => 3, // HELIX
        0x534845455420 => 4, // SHEET
        0x5455524e2020 => 5, // TURN
        0x534954452020 => 6, // SITE
        0x4f5249475831 => 7, // ORIGX1
        0x4f5249475832 => 7, // ORIGX2
        0x4f5249475833 => 7, // ORIGX3
        0x5343414c4531 => 7, // SCALE1
        0x5343414c4532 => 7, // SCALE2
        0x5343414c4533 => 7, // SCALE3
        0x4d5452495831 => 7, // MTRIX1
        0x4d5452495832 => 7, // MTRIX2
        0x4d5452495833 => 7, // MTRIX3
        0x41544f4d2020 => 8, // ATOM
        0x48455441544d => 8, // HETATM
        0x544552202020 => 9, // TER
        0x434f4e454354 => 10, // CONECT
        0x534551524553 => 11, // SEQRES
        _ => return None,
    };
    Some(number)
}

// The place, from 0, of the number that counts a line, if one does.
pub fn number_of(line: &[u8]) -> Option<usize>
    ensures { result ≡ specs.number_of line.now }
{
    if line.len() < 3 {
        return None;
    }
    numbered(name_key(line))
}

// Whether a line is a MASTER line, of six bytes or more.
pub fn is_master(line: &[u8]) -> bool
    ensures { result ≡ specs.is_master line.now }
{
    name_key(line) == 0x4d4153544552
}
