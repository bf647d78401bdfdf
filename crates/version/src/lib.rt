// Which of two version texts is newer.
// A text is its runs of digits and of letters; what stands between them only separates.
#![tactic(auto)]

ghost use Rattle.std.specs.Prelude.{◌≡◌, ◌≢◌, ◌≤◌, length, IfOk};
ghost use Rattle.runs.specs.Runs.{separator, met};
ghost use Rattle.version.specs.Version.{kind_of, by_text};
ghost use Rattle.version.specs.Steps.{Skips};

use runs::{Kind, kind_of, of_kind};
use std::cmp::Ordering;

// The text from its first run on.
fn skip(s: &[u8]) -> &[u8]
    ensures { Skips s.now result.now }
{
    let n = s
        .iter()
        .take_while(|b| of_kind(**b, Kind::Separator))
        .count();
    &s[n..]
}

// The kind of a text's first byte; a separator's where there is none.
fn first_kind(s: &[u8]) -> Kind
    ensures { result ≡ kind_of s.now }
{
    match s.first() {
        Some(b) => kind_of(*b),
        None => Kind::Separator,
    }
}

// The runs of kind `k` that two texts begin with.
fn first_runs(a: &[u8], b: &[u8], k: Kind) -> Result<(usize, usize), Ordering>
    requires { k ≢ separator }
    ensures runs { result ≡ met k a.now b.now }
    ensures fits { IfOk result (λ ends. (ends.0 ≤ length a.now) × (ends.1 ≤ length b.now)) }
{
    if k == Kind::Digit {
        return runs::digits(a, b);
    }
    runs::letters(a, b)
}

// How the left text stands to the right one: older (less), the same (equal) or newer (greater).
pub fn compare(left: &[u8], right: &[u8]) -> Ordering
    ensures { result ≡ by_text left.now right.now }
{
    let mut a = left;
    let mut b = right;
    loop {
        a = skip(a);
        b = skip(b);
        let k = first_kind(a);
        let l = first_kind(b);
        if k != l {
            return k.cmp(&l);
        }
        if k == Kind::Separator {
            return Ordering::Equal;
        }
        match first_runs(a, b, k) {
            Ok((m, n)) => {
                a = &a[m..];
                b = &b[n..];
            }
            Err(order) => return order,
        }
    }
}
