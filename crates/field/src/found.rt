// What a field is read as, beside the faults.
ghost use Rattle.std.specs.Prelude.{◌≡◌, IfNone, MatchOption};
ghost use Rattle.line.specs.Faults.{noted};

use line::fault::{Fault, Faults, Got};

// The value that was found, or else the default, with the field's fault noted.
pub fn found_or<T: Drop, F: FnOnce() -> Fault>(
    found: Option<T>,
    default: T,
    faults: Faults,
    fault: F,
) -> Got<T>
    requires { IfNone found (F.pre fault) }
    ensures { MatchOption found ((one : _) × F.post fault one × (result ≡ record { value = default; faults = noted faults one })) (λ x. result ≡ record { value = x; faults = faults }) }
{
    match found {
        Some(value) => Got { value, faults },
        None => Got {
            value: default,
            faults: faults.note(fault()),
        },
    }
}
