// The gap between the signature's end and H: check 28.
#![tactic(auto)]

ghost use Rattle.std.specs.Prelude.{◌≡◌, ◌-◌};
ghost use Rattle.gap.specs.Gap.{gap_end, gap_check};

use format::{Refusal, Verdict};
use places::{FileOffset, Start};

// Where the gap before `start` ends in a package of `len` bytes: at `start`, or where the package does.
fn gap_end(len: u32, start: Start) -> u32
    ensures { result ≡ gap_end len start.0 }
{
    start.get().min(len)
}

// How many bytes from the place `from` up to `start` a package of `len` bytes has.
fn gap_size(len: u32, from: usize, start: Start) -> usize
    ensures { result ≡ gap_end len start.0 - from }
{
    (gap_end(len, start) as usize).saturating_sub(from)
}

// Check 28: the bytes from `end` up to `start` are zero, as far as a package of `len` bytes has them.
pub fn check(s: &[u8], len: u32, end: FileOffset, start: Start) -> Verdict
    ensures { result ≡ gap_check s.now len end.0 start.0 }
{
    let from = end.get();
    let size = gap_size(len, from, start);
    let mut place = end;
    for _ in 0..size {
        let at = place.get();
        let b = place.byte(s);
        if b != 0 {
            let place = at as u32;
            return Err(Refusal { number: 28, place });
        }
        place = place.behind(1);
    }
    Ok(())
}
