// The first record whose tag an earlier one has: among records of 16 bytes, and in one structure (check 13).
#![tactic(auto)]

ghost use Rattle.std.specs.Prelude.{◌≡◌, true, ◌+◌, ◌*◌, ◌≤◌, length};
ghost use Rattle.be.specs.Numbers.{be32_at};
ghost use Rattle.among.specs.Among.{tag_among, first_from};
ghost use Rattle.repeats.specs.Repeats.{repeated_in, repeated_among};
ghost use Rattle.repeats.specs.Seen.{AtMost, Marked};

use flags::Flags;
use format::{IndexRecord, Section};

// The tag of record `i`, in a slice that has it whole.
fn tag_at(s: &[u8], i: u32) -> u32
    requires { 16 * i + 16 ≤ length s.now }
    ensures { result ≡ be32_at s.now (16 * i) }
{
    let at = IndexRecord::SIZE * i as usize;
    be::join32(s[at], s[at + 1], s[at + 2], s[at + 3])
}

// Whether the tags of the first `n` records, which the slice has whole, rise: then none occurs twice. By twos.
fn rises(s: &[u8], n: u32) -> bool
    requires { (1 ≤ n) × (16 * n ≤ length s.now) }
    ensures { result ≡ true → n ≡ first_from (repeated_among s.now) n 0 }
{
    let mut last = tag_at(s, 0);
    let mut i = 1;
    while 2 <= n - i {
        let one = tag_at(s, i);
        if one <= last {
            return false;
        }
        let two = tag_at(s, i + 1);
        if two <= one {
            return false;
        }
        last = two;
        i += 2;
    }
    if i < n {
        return last < tag_at(s, i);
    }
    true
}

// Whether one of the first `i` records has the tag. None of their tags is over `highest`, and the flag of each is set.
fn is_repeated(s: &[u8], i: u32, highest: u32, flags: &Flags, tag: u32) -> bool
    requires { AtMost s.now i highest × Marked s.now i flags.now.words }
    ensures { result ≡ tag_among s.now i tag }
{
    if highest < tag {
        return false;
    }
    flags.is_set(tag) && among::tag_among(s, i, tag)
}

// The same as `first`, for tags in any order.
fn first_by_flags(s: &[u8], n: u32) -> u32
    ensures { result ≡ first_from (repeated_among s.now) n 0 }
{
    let mut flags = Flags::new();
    let mut highest = 0;
    for i in 0..n {
        let tag = be::be32(s, IndexRecord::SIZE * i as usize);
        if is_repeated(s, i, highest, &flags, tag) {
            return i;
        }
        highest = highest.max(tag);
        flags.set(tag);
    }
    n
}

// The first of the first `n` records of a slice whose tag an earlier one has; `n` where there is none. A byte past the end
// reads as 0.
pub fn first(s: &[u8], n: u32) -> u32
    ensures { result ≡ first_from (repeated_among s.now) n 0 }
{
    if 1 <= n && IndexRecord::SIZE * n as usize <= s.len() && rises(s, n) {
        return n;
    }
    first_by_flags(s, n)
}

// The same of the index of a structure.
pub fn first_in_index(s: &[u8], section: Section) -> u32
    ensures { result ≡ first_from (repeated_in s.now section) section.nindex 0 }
{
    let index = section.index_record(0);
    first(index.part(s, s.len()), section.nindex)
}
