// HEADER.
ghost use Rattle.std.specs.Prelude.{◌≡◌, []};
ghost use Rattle.line.specs.Given.{alone};
ghost use Rattle.header.specs.Header as specs;

use crate::record::Header;
use line::columns::Columns;
use line::fault::{Faults, Got};
use line::text::Text;

// The columns as they stand.
fn as_they_stand(at: Columns) -> Text
    ensures { result ≡ specs.standing at }
{
    Text::new(at.start as usize, at.width() as usize)
}

// A HEADER that reaches its last column.
pub fn lex_header() -> Got<Header>
    ensures { result ≡ specs.got_header (alone []) }
{
    Got {
        value: Header::new(
            as_they_stand(Header::CLASSIFICATION),
            as_they_stand(Header::DATE),
            as_they_stand(Header::CODE),
        ),
        faults: Faults::none(),
    }
}
