// Runs of digits and of letters in version texts: which of two is newer.
#![tactic(auto)]

ghost use Rattle.std.specs.Prelude.{◌≡◌, ◌≤◌, length, drop};
ghost use Rattle.std.specs.Ordering.{nat_cmp};
ghost use Rattle.std.specs.List.{prefix_len};
ghost use Rattle.runs.specs.Runs.{kind, letter, digit, of_kind, is_zero, met};
ghost use Rattle.runs.specs.Common.{common, byte_of, by_first};

use std::cmp::Ordering;

// The kinds of bytes, from the lowest: what only separates, letters, digits.
#[derive(Clone, Copy, PartialEq, Eq, PartialOrd, Ord)]
pub enum Kind {
    Separator,
    Letter,
    Digit,
}

// The kind of a byte. Letters and digits are ASCII.
#[tactic(auto, using(std::proofs::lemmas::Bool::Decides::nat_tests), unfolding(crate::specs::Runs::kind, crate::specs::Runs::is_digit, crate::specs::Runs::is_letter))]
#[inline(always)]
pub fn kind_of(b: u8) -> Kind
    ensures { result ≡ kind b }
{
    match b {
        b'0'..=b'9' => Kind::Digit,
        b'A'..=b'Z' | b'a'..=b'z' => Kind::Letter,
        _ => Kind::Separator,
    }
}

// Whether a byte is of kind `k`.
#[inline(always)]
pub fn of_kind(b: u8, k: Kind) -> bool
    ensures { result ≡ of_kind k b }
{
    kind_of(b) == k
}

// How many zeros stand in front.
fn zeros(s: &[u8]) -> usize
    ensures { (result ≡ prefix_len is_zero s.now) × (result ≤ length s.now) }
{
    s.iter().take_while(|b| **b == b'0').count()
}

// How many bytes of kind `k` in front are the same in both.
#[inline(always)]
fn same_front(a: &[u8], b: &[u8], k: Kind) -> usize
    ensures { (result ≡ common k a.now b.now) × (result ≤ length a.now)
        × (result ≤ length b.now) }
{
    let n = a.len().min(b.len());
    for i in 0..n {
        if a[i] != b[i] || !of_kind(a[i], k) {
            return i;
        }
    }
    n
}

// The byte at a place, where it is of kind `k`.
fn byte_of(s: &[u8], at: usize, k: Kind) -> Option<u8>
    ensures { result ≡ byte_of k (drop at s.now) }
{
    match s.get(at) {
        Some(b) if of_kind(*b, k) => Some(*b),
        _ => None,
    }
}

// Which has more digits in front.
fn longer(a: &[u8], b: &[u8]) -> Ordering
    ensures { result ≡ nat_cmp (prefix_len (of_kind digit) a.now) (prefix_len (of_kind digit) b.now) }
{
    let n = a
        .iter()
        .zip(b)
        .take_while(|p| of_kind(*p.0, Kind::Digit) && of_kind(*p.1, Kind::Digit))
        .count();
    let left = byte_of(a, n, Kind::Digit).is_some();
    let right = byte_of(b, n, Kind::Digit).is_some();
    left.cmp(&right)
}

// Which of two runs of digits is newer, from their first difference on: the longer, else by its digit there.
fn higher(a: &[u8], b: &[u8]) -> Ordering
    ensures { result ≡ by_first a.now b.now }
{
    let x = byte_of(a, 0, Kind::Digit);
    let y = byte_of(b, 0, Kind::Digit);
    if x.is_none() && y.is_none() {
        return Ordering::Equal;
    }
    longer(a, b).then(x.cmp(&y))
}

// The letters in front of two texts, by bytes; a run that the other goes on from is older. Where they are the same: how
// many bytes each has.
pub fn letters(a: &[u8], b: &[u8]) -> Result<(usize, usize), Ordering>
    ensures { result ≡ met letter a.now b.now }
{
    let n = same_front(a, b, Kind::Letter);
    let x = byte_of(a, n, Kind::Letter);
    let y = byte_of(b, n, Kind::Letter);
    if x.is_none() && y.is_none() {
        return Ok((n, n));
    }
    match x.cmp(&y) {
        Ordering::Equal => Ok((n, n)),
        order => Err(order),
    }
}

// The digits in front of two texts, by value. Where they are the same: how many bytes each has.
pub fn digits(a: &[u8], b: &[u8]) -> Result<(usize, usize), Ordering>
    ensures { result ≡ met digit a.now b.now }
{
    let i = zeros(a);
    let j = zeros(b);
    let c = &a[i..];
    let d = &b[j..];
    let n = same_front(c, d, Kind::Digit);
    match higher(&c[n..], &d[n..]) {
        Ordering::Equal => Ok((i + n, j + n)),
        order => Err(order),
    }
}
