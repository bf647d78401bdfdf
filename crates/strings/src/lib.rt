// Zero-ended strings of a slice.
// A byte past the end reads as 0.
#![tactic(auto)]

ghost use Rattle.std.specs.Prelude.{◌≡◌, ◌-◌, ◌≤◌, length};
ghost use Rattle.strings.specs.Strings.{strings_from, next_zero, empty_strings};

// The place of the first zero byte from `at`, before `stop`; `stop` where there is none, or `at` behind it.
fn next_zero_near(s: &[u8], at: usize, stop: usize) -> usize
    requires { stop ≤ length s.now }
    ensures { result ≡ next_zero s.now (stop - at) at }
{
    for i in at..stop {
        if s[i] == 0 {
            return i;
        }
    }
    at.max(stop)
}

// The same, eight bytes at a time while there is room.
fn next_zero(s: &[u8], at: usize, stop: usize) -> usize
    requires { stop ≤ length s.now }
    ensures { result ≡ next_zero s.now (stop - at) at }
{
    let wide = stop.saturating_sub(7);
    let mut i = at;
    while i < wide {
        let zero = next_zero_near(s, i, i + 8);
        i += 8;
        if zero < i {
            return zero;
        }
    }
    next_zero_near(s, i, stop)
}

// The place behind `count` empty strings from `at`, all before `end`.
fn empty_strings_end(at: usize, end: usize, count: u32) -> Option<usize>
    ensures { result ≡ empty_strings (end - at) at count }
{
    let needed = count as usize;
    if needed <= end.saturating_sub(at) {
        Some(at + needed)
    } else {
        None
    }
}

// The place behind `count` strings in a row from `at`, all before `end`.
pub fn strings_end(s: &[u8], at: usize, end: usize, count: u32) -> Option<usize>
    ensures { result ≡ strings_from s.now (end - at) at count }
{
    let stop = end.min(s.len());
    let mut i = at;
    for done in 0..count {
        let zero = next_zero(s, i, stop);
        if stop <= zero {
            return empty_strings_end(zero, end, count - done);
        }
        i = zero + 1;
    }
    Some(i)
}
