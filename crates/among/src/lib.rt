// A tag among records of 16 bytes: whether one has it, and the first that does.
#![tactic(auto)]

ghost use Rattle.std.specs.Prelude.{◌≡◌, ◌+◌, ◌-◌, ◌*◌, ◌%◌, ◌≤◌, length, drop, eqb};
ghost use Rattle.be.specs.Numbers.{be32_at};
ghost use Rattle.among.specs.Among.{has_tag, low_among, tag_among, first_from};

use format::IndexRecord;

// Whether the record at a place has the tag, whose last byte is `low`. Most tags differ in it.
fn tag_is(s: &[u8], at: usize, low: u8, tag: u32) -> bool
    requires { (at + 4 ≤ length s.now) × (low ≡ tag % 256) }
    ensures { result ≡ eqb (be32_at s.now at) tag }
{
    if s[at + 3] != low {
        return false;
    }
    be::join32(s[at], s[at + 1], s[at + 2], s[at + 3]) == tag
}

// Whether the tag of one of the four records from a place on has the last byte.
fn low_in_4(s: &[u8], at: usize, low: u8) -> bool
    requires { at + 64 ≤ length s.now }
    ensures { result ≡ low_among s.now at low }
{
    if s[at + 3] == low {
        return true;
    }
    if s[at + 19] == low {
        return true;
    }
    if s[at + 35] == low {
        return true;
    }
    s[at + 51] == low
}

// Whether one of the four records from a place on has the tag.
#[inline(always)]
fn tag_in_4(s: &[u8], at: usize, low: u8, tag: u32) -> bool
    requires { (at + 64 ≤ length s.now) × (low ≡ tag % 256) }
    ensures { result ≡ tag_among (drop at s.now) 4 tag }
{
    if tag_is(s, at + 48, low, tag) {
        return true;
    }
    if tag_is(s, at + 32, low, tag) {
        return true;
    }
    if tag_is(s, at + 16, low, tag) {
        return true;
    }
    tag_is(s, at, low, tag)
}

// Whether one of the first `n` records has the tag, in a slice that has them: by fours, and the first four stand for those
// that are left.
fn among_by_4(s: &[u8], n: u32, tag: u32) -> bool
    requires { (4 ≤ n) × (16 * n ≤ length s.now) }
    ensures { result ≡ tag_among s.now n tag }
{
    let low = (tag % 256) as u8;
    let mut k = n;
    while 4 <= k {
        k -= 4;
        let at = IndexRecord::SIZE * k as usize;
        if low_in_4(s, at, low) {
            if tag_in_4(s, at, low, tag) {
                return true;
            }
        }
    }
    tag_in_4(s, 0, low, tag)
}

// The same one by one, in any slice.
fn among_by_1(s: &[u8], n: u32, tag: u32) -> bool
    ensures { result ≡ tag_among s.now n tag }
{
    for k in (0..n).rev() {
        if be::be32(s, IndexRecord::SIZE * k as usize) == tag {
            return true;
        }
    }
    false
}

// Whether one of the first `n` records of a slice has the tag. A byte past the end reads as 0.
pub fn tag_among(s: &[u8], n: u32, tag: u32) -> bool
    ensures { result ≡ tag_among s.now n tag }
{
    if 4 <= n {
        if IndexRecord::SIZE * n as usize <= s.len() {
            return among_by_4(s, n, tag);
        }
    }
    among_by_1(s, n, tag)
}

// The first record from record `from` on, before record `n`, that has the tag; the one behind them where there is none. One
// by one, in any slice.
fn first_by_1(s: &[u8], n: u32, from: u32, tag: u32) -> u32
    ensures { result ≡ first_from (has_tag s.now tag) (n - from) from }
{
    for i in from..n {
        if be::be32(s, IndexRecord::SIZE * i as usize) == tag {
            return i;
        }
    }
    from.max(n)
}

// The same by fours, in a slice that has the first `n` records.
fn first_by_4(s: &[u8], n: u32, from: u32, tag: u32) -> u32
    requires { (from ≤ n) × (16 * n ≤ length s.now) }
    ensures { result ≡ first_from (has_tag s.now tag) (n - from) from }
{
    let low = (tag % 256) as u8;
    let mut next = from;
    while 4 <= n - next {
        let i = next;
        next += 4;
        let at = IndexRecord::SIZE * i as usize;
        if low_in_4(s, at, low) {
            if tag_in_4(s, at, low, tag) {
                return first_by_1(s, n, i, tag);
            }
        }
    }
    first_by_1(s, n, next, tag)
}

// The first record of a slice, from record `from` on, before record `n`, that has the tag; the one behind them where there is
// none. A byte past the end reads as 0.
pub fn first_with(s: &[u8], n: u32, from: u32, tag: u32) -> u32
    ensures { result ≡ first_from (has_tag s.now tag) (n - from) from }
{
    if from <= n {
        if IndexRecord::SIZE * n as usize <= s.len() {
            return first_by_4(s, n, from, tag);
        }
    }
    first_by_1(s, n, from, tag)
}
