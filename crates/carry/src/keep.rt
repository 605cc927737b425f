// Keeping the bytes of an unfinished line: the first 1,024 of them, and how many there are.
ghost use Rattle.std.specs.Prelude.{◌≡◌, ◌+◌, min, drop};
ghost use Rattle.carry.specs.Held as specs;

use crate::held::Held;

// How many bytes of a line are kept.
pub const MOST_KEPT: usize = 1024;

// Keeps a byte where there is room for it, and counts it. The count stops at the largest number: no input has so many bytes.
fn keep_byte(kept: &mut [u8; 1024], total: usize, b: u8) -> usize
    ensures { (result ≡ min (total + 1) specs.most_count) × (kept.new ≡ specs.stored kept.old total b) }
{
    if total < MOST_KEPT {
        kept[total] = b;
    }
    total.saturating_add(1)
}

// What is held at an offset of a part.
#[derive(Clone, Copy)]
pub struct Absorbed {
    pub held: Held,
    pub at: usize,
}

// Keeps the bytes of a part from an offset up to an LF, or to the part's end.
pub fn absorb(held: Held, kept: &mut [u8; 1024], part: &[u8], at: usize) -> Absorbed
    ensures { specs.Absorbs (record { held = held; kept = kept.old }) (drop at part.now) at kept.new result }
{
    let mut total = held.total;
    let mut cr = held.cr;
    for i in at..part.len() {
        let b = part[i];
        if b == 10 {
            return Absorbed {
                held: Held {
                    total,
                    cr,
                    number: held.number,
                },
                at: i,
            };
        }
        total = keep_byte(kept, total, b);
        cr = b == 13;
    }
    Absorbed {
        held: Held {
            total,
            cr,
            number: held.number,
        },
        at: at.max(part.len()),
    }
}
