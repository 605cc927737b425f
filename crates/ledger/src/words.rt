// One word of the ledger.
ghost use Rattle.std.specs.Prelude.{◌≡◌, ◌<◌};
ghost use Rattle.ledger.specs.Ledger as specs;

// So much more, to 2^64-1.
pub fn add(ledger: &mut [u64; 69], n: usize, more: u64)
    requires { n < 69 }
    ensures { ledger.new ≡ specs.added ledger.old n more }
{
    let old = ledger[n];
    if 18446744073709551615 - more < old {
        ledger[n] = 18446744073709551615;
        return;
    }
    ledger[n] = old + more;
}

// 1, if something is so.
pub fn raise(ledger: &mut [u64; 69], n: usize, so: bool)
    requires { n < 69 }
    ensures { ledger.new ≡ specs.raised ledger.old n so }
{
    if so {
        ledger[n] = 1;
        return;
    }
}

pub fn one(so: bool) -> u64
    ensures { result ≡ specs.one so }
{
    if so {
        return 1;
    }
    0
}
