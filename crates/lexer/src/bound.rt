// The refusals that come of what a kind asks of its line.
ghost use Rattle.std.specs.Prelude.{◌≡◌};
ghost use Rattle.lexer.specs.Refusals as specs;
ghost use Rattle.lexer.specs.Steps as steps;

use header::record::Header;
use lexitem::answer::Refusal;
use lexitem::bound::Bound;
use number::trim::kept_length;
use remark::record::Remark;

// The place that a cut HEADER's refusal names.
const HEADER_PLACE: usize = 11;

fn test_header(line: &[u8]) -> Result<(), Refusal>
    ensures { result ≡ steps.header_test line.now }
{
    let n = line.len();
    if Header::CODE.end as usize <= n {
        return Ok(());
    }
    Err(Refusal::new(4, HEADER_PLACE, n.saturating_sub(HEADER_PLACE)))
}

fn test_remark(line: &[u8], loose: bool) -> Result<(), Refusal>
    ensures { result ≡ steps.remark_test line.now loose }
{
    let n = line.len();
    if loose || n <= Remark::TEXT as usize || kept_length(line) < Remark::LIMIT {
        return Ok(());
    }
    Err(Refusal::new(5, Remark::LIMIT, n - Remark::LIMIT))
}

fn test_least(least: usize, line: &[u8]) -> Result<(), Refusal>
    ensures { result ≡ steps.least_test least line.now }
{
    let n = line.len();
    if n < least {
        return Err(Refusal::new(6, n, least - n));
    }
    Ok(())
}

// The refusals 4 to 6, by what the line's kind asks of it.
pub fn test_own(bound: Bound, line: &[u8], loose: bool) -> Result<(), Refusal>
    ensures { result ≡ steps.own_test bound line.now loose }
{
    match bound {
        Bound::Header => test_header(line),
        Bound::Remark => test_remark(line, loose),
        Bound::Least(least) => test_least(least, line),
        Bound::Free => Ok(()),
    }
}
