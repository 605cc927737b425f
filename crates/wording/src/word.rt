// What stands in a field as a word.
ghost use Rattle.std.specs.Prelude.{◌≡◌, ◌≤◌, get_or};
ghost use Rattle.wording.specs.Fields as specs;

use line::text::Text;

// The first word of a field.
pub(crate) fn head_word(column: u16, sort: u64, places: u8) -> u64
    requires { sort ≤ 5 }
    ensures { result ≡ specs.head_word column sort places }
{
    column as u64 + sort * 65536 + places as u64 * 16777216
}

pub(crate) fn signed_word(n: i64) -> u64
    ensures { result ≡ specs.twos n }
{
    n.cast_unsigned()
}

pub(crate) fn text_word(text: Text) -> u64
    ensures { result ≡ specs.text_word text }
{
    text.place as u64 % 4294967296 * 4294967296 + text.length as u64 % 4294967296
}

fn wide(b: u8) -> u64
    ensures { result ≡ b }
{
    b as u64
}

pub(crate) fn byte_at(line: &[u8], place: usize) -> u64
    ensures { result ≡ get_or line.now place 256 }
{
    if place < line.len() {
        return wide(line[place]);
    }
    256
}

pub(crate) fn flag_word(flag: bool) -> u64
    ensures { result ≡ specs.flag_word flag }
{
    if flag {
        return 1;
    }
    0
}
