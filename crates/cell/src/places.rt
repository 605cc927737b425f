// A double as a decimal of so many places: the nearest one, a tie to the even last digit.
ghost use Rattle.std.specs.Prelude.{◌≡◌, ◌*◌, ◌^◌, ◌≤◌, ◌<◌};
ghost use Rattle.std.specs.Float.Ieee.Nearest.{closest};
ghost use Rattle.cell.specs.Places as specs;

// The digits of a decimal and its sign. More than ten digits fit no column, and a NaN or an infinity has none.
#[derive(Clone, Copy)]
pub struct Rounded {
    pub minus: bool,
    pub digits: u64,
}

#[tactic(auto, unfolding(crate::specs::Places::within))]
fn within(minus: bool, n: u64) -> Option<Rounded>
    ensures { result ≡ specs.within minus n }
{
    if n < 10000000000 {
        return Some(Rounded { minus, digits: n });
    }
    None
}

// 2^n.
fn two(n: u64) -> u64
    requires { n < 63 }
    ensures { result ≡ 2 ^ n }
{
    1 << n
}

// The whole number nearest to digits * power / 2^shift, a tie to the even one. The product is worked out in two parts, the lower
// of 16 bits: it can be larger than 64 bits.
fn scaled(minus: bool, digits: u64, power: u64, shift: u64) -> Option<Rounded>
    requires digits_bound { digits < 2 ^ 53 }
    requires power_bound { power < 2 ^ 21 }
    requires le_shift { 17 ≤ shift }
    requires shift_bound { shift < 80 }
    ensures { result ≡ specs.within minus (closest (digits * power) (2 ^ shift)) }
{
    let low = digits % 65536 * power;
    let high = digits / 65536 * power + low / 65536;
    let half = two(shift - 17);
    let unit = half * 2;
    let n = high / unit;
    let r = high % unit;
    if r < half {
        return within(minus, n);
    }
    if half < r {
        return within(minus, n + 1);
    }
    if low % 65536 != 0 {
        return within(minus, n + 1);
    }
    within(minus, n + n % 2)
}

// x in so few places. By its bits a double is a whole number over a power of two: ten times ten and so on is a power of five and one of two,
// so that the power of two is left to a shift.
fn round_few(x: f64, places: usize) -> Option<Rounded>
    requires { places ≤ 9 }
    ensures { result ≡ specs.rounded_to places x }
{
    if x != x {
        return None;
    }
    let bits = f64::to_bits(x);
    let minus = 0x8000_0000_0000_0000 <= bits;
    let field = bits % 0x8000_0000_0000_0000 / 0x10_0000_0000_0000;
    let digits = bits % 0x10_0000_0000_0000;
    let least = 1075 - places as u64;
    if least <= field + 16 {
        return None;
    }
    if field + 80 <= least {
        return Some(Rounded { minus, digits: 0 });
    }
    scaled(
        minus,
        0x10_0000_0000_0000 + digits,
        5u64.pow(places as u32),
        least - field,
    )
}

// x in so many places.
#[tactic(auto, unfolding(crate::specs::Places::places_of))]
pub fn round_to(x: f64, places: usize) -> Option<Rounded>
    ensures { result ≡ specs.places_of places x }
{
    if 9 < places {
        return None;
    }
    round_few(x, places)
}
