// Whole numbers by what was read of their columns as one word (`number::word`). Where nothing was, a caller reads the columns from their front.
ghost use Rattle.std.specs.Prelude.{◌≡◌};
ghost use Rattle.field.specs.Number as specs;

use number::word::{MINUS, NONE};

// A signed number of four columns.
pub fn signed_four(code: u64) -> Option<i64>
    ensures { result ≡ specs.signed_four code }
{
    if code == NONE {
        return None;
    }
    let front = (code % 65536) as i64;
    if MINUS <= code {
        return Some(0 - front);
    }
    Some(front)
}

// An unsigned number of five columns, the last of which stood behind the point. With a minus it is none.
pub fn unsigned_five(code: u64) -> Option<u64>
    ensures { result ≡ specs.unsigned_five code }
{
    if MINUS <= code {
        return None;
    }
    Some(code % 65536 * 10 + code / 0x1_0000_0000 % 65536 / 100)
}
