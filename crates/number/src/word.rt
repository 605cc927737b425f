// Numbers in words of eight bytes: blanks, a minus or none, digits, a point and three digits. How many blanks and digits stand before the
// point, and whether a minus does, is another from line to line, and a processor that guesses its way through tests of single bytes
// guesses wrong. So all eight bytes are tested at once, as one number. A text of four, five or six columns is filled up to such a word.
ghost use Rattle.std.specs.Prelude.{◌≡◌, [], ◌∷◌, ◌*◌, ◌<◌, ◌^◌};
ghost use Rattle.number.specs.Word as specs;

// What is read of a word that is written otherwise. It is a number and no `None`: a flag beside it is stored and loaded for each real.
pub const NONE: u64 = 0xffff_ffff_ffff_ffff;

// The bit of a minus in what is read.
pub const MINUS: u64 = 0x8000_0000_0000_0000;

// Four bytes as one number, the first in the lowest place.
fn half(a: u8, b: u8, c: u8, d: u8) -> u32
    ensures { result ≡ specs.held_of (a ∷ b ∷ c ∷ d ∷ []) }
{
    ((d as u32 * 256 + c as u32) * 256 + b as u32) * 256 + a as u32
}

// Eight bytes likewise. The lower half is looked at by itself later on, and joined apart it is loaded at once.
fn word(a: u8, b: u8, c: u8, d: u8, e: u8, f: u8, g: u8, h: u8) -> u64
    ensures { result ≡ specs.held_of (a ∷ b ∷ c ∷ d ∷ e ∷ f ∷ g ∷ h ∷ []) }
{
    half(e, f, g, h) as u64 * 0x1_0000_0000 + half(a, b, c, d) as u64
}

// Which front four bytes seem to have: two for each that has not the bit of the digits, and one more for a minus, which is odd.
// Whatever this answers, the front is tested afterwards.
fn guess(front: u64) -> u64
    requires { front < 2 ^ 32 }
    ensures { result ≡ specs.guess_of front }
{
    let others = (0x1010_1010 - (front & 0x1010_1010)) / 16;
    (others * 2 + (front & others)) * 0x0101_0101 / 0x0100_0000 % 8
}

// A front by its guess, 48 for each digit: below its bytes, and above how far a byte may lie over each, as what is wanting to 127.
// One number holds both, so that one look-up serves them.
fn packed(guess: u64) -> u64
    ensures { result ≡ specs.packed_of (specs.front_of guess) }
{
    match guess {
        0 => 0x7676_7676_3030_3030,
        1 => 0x7676_767f_3030_302d,
        2 => 0x7676_767f_3030_3020,
        3 => 0x7676_767f_3030_302d,
        4 => 0x7676_7f7f_3030_2020,
        5 => 0x7676_7f7f_3030_2d20,
        6 => 0x767f_7f7f_3020_2020,
        _ => 0x767f_7f7f_302d_2020,
    }
}

// The numbers that four digits and four more say, each digit in its place of a word: joined to pairs, and these to fours.
fn fours(word: u64) -> u64
    requires { word * 28 < 2 ^ 64 }
    ensures { result ≡ specs.fours_of word }
{
    let pairs = (word * 10 + word / 256) & 0x00ff_00ff_00ff_00ff;
    pairs * 100 + pairs / 65536
}

// What a word says: the number before the point in the lowest two bytes, the one behind it in the two from the fifth on, and a minus in
// the highest bit. A minus is the one odd byte of a front.
#[inline(always)]
pub fn read_word(word: u64) -> u64
    ensures { result ≡ specs.code_of word }
{
    let shape = packed(guess(word % 0x1_0000_0000));
    let bytes = shape % 0x1_0000_0000 + 0x3030_302e_0000_0000;
    let slack = shape / 0x1_0000_0000 + 0x7676_767f_0000_0000;
    let over = word ^ bytes;
    if over & 0x8080_8080_8080_8080 != 0 {
        return NONE;
    }
    if (over + slack) & 0x8080_8080_8080_8080 != 0 {
        return NONE;
    }
    let value = fours(over);
    if bytes & 0x0101_0101 != 0 {
        return value + MINUS;
    }
    value
}

// Eight columns. The readers of four to eight columns stay apart: each has its own order of bytes, and shares with the others one test alone.
pub fn eight(text: &[u8]) -> u64
    ensures { result ≡ specs.eight_of text.now }
{
    if text.len() != 8 {
        return 0;
    }
    word(
        text[0], text[1], text[2], text[3], text[4], text[5], text[6], text[7],
    )
}

// Six columns have three before the point and two behind it.
pub fn six(text: &[u8]) -> u64
    ensures { result ≡ specs.six_of text.now }
{
    if text.len() != 6 {
        return 0;
    }
    word(32, text[0], text[1], text[2], text[3], text[4], text[5], 48)
}

// Four columns of a whole number.
pub fn four(text: &[u8]) -> u64
    ensures { result ≡ specs.four_of text.now }
{
    if text.len() != 4 {
        return 0;
    }
    word(text[0], text[1], text[2], text[3], 46, 48, 48, 48)
}

// Five columns of a whole number: the last digit goes behind the point.
pub fn five(text: &[u8]) -> u64
    ensures { result ≡ specs.five_of text.now }
{
    if text.len() != 5 {
        return 0;
    }
    word(text[0], text[1], text[2], text[3], 46, text[4], 48, 48)
}
