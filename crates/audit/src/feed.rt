// A file that comes in parts: what is known after a part, and at the end. The space for it doesn't grow with the file.
ghost use Rattle.std.specs.Prelude.{◌≡◌, ◌≤◌, length, take, drop};
ghost use Rattle.audit.specs.Cuts as specs;
ghost use Rattle.audit.specs.Watch.{seen};

use crate::see::{see_line, see_lines};
use crate::watch::Watch;
use carry::behind_last;
use carry::held::Held;
use carry::keep::{MOST_KEPT, absorb};
use walker::following;

// What is known behind a part, and what is held of an unfinished line.
#[derive(Clone, Copy)]
pub struct Watched {
    pub held: Held,
    pub watch: Watch,
}

// The line that the first so many bytes of a text are, more.
fn see_front(watch: Watch, text: &[u8], size: usize, taken: usize) -> Watch
    requires { size ≤ length text.now }
    ensures { result ≡ seen watch (take size text.now) size taken }
{
    see_line(watch, &text[..size], size, taken)
}

// The line that was held, of so many bytes, more.
fn see_held(watch: Watch, kept: &[u8; 1024], size: usize, taken: usize) -> Watch
    ensures { result ≡ specs.seen_held watch kept.now size taken }
{
    if MOST_KEPT < size {
        return see_line(watch, kept, size, taken);
    }
    see_front(watch, kept, size, taken)
}

// The rest of a part, before which nothing is held: its whole lines are seen, and what stands behind them is held.
fn watch_rest(number: usize, watch: Watch, kept: &mut [u8; 1024], part: &[u8], at: usize) -> Watched
    requires { at ≤ length part.now }
    ensures { specs.Watches (specs.freely number watch kept.old (drop at part.now)) kept.new result }
{
    let behind = behind_last(part, at);
    let w = see_lines(watch, &part[at..behind]);
    let rest = absorb(Held::none(number), kept, part, behind);
    let h = rest.held;
    Watched { held: h, watch: w }
}

// A part more, behind those that came before it.
pub fn watch_part(held: Held, kept: &mut [u8; 1024], watch: Watch, part: &[u8]) -> Watched
    ensures { specs.Watches (specs.behind_part (record { watch = watch; state = record { held = held; kept = kept.old } }) part.now) kept.new result }
{
    if held.total == 0 {
        return watch_rest(held.number, watch, kept, part, 0);
    }
    let absorbed = absorb(held, kept, part, 0);
    let h = absorbed.held;
    let lf = absorbed.at;
    if part.len() <= lf {
        return Watched { held: h, watch };
    }
    let next = lf + 1;
    let w = see_held(watch, kept, h.ended_size(), following(h.total));
    watch_rest(h.number, w, kept, part, next)
}

// The end of the input, which ends the line that is held if a byte of it came.
pub fn watch_last(held: Held, kept: &[u8; 1024], watch: Watch) -> Watch
    ensures { result ≡ specs.last_watch watch (record { held = held; kept = kept.now }) }
{
    if held.total == 0 {
        return watch;
    }
    see_held(watch, kept, held.total, held.total)
}
