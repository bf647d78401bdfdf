// Look-ups of the elements of an entry: check 26.
#![tactic(auto, unfolding(crate::specs::Elements::element_of, crate::specs::Elements::sought_element))]

ghost use Rattle.std.specs.Prelude.{◌≡◌, ◌+◌, ◌≤◌};
ghost use Rattle.strings.specs.Strings.{strings_from};
ghost use Rattle.format.specs.Sizes.{package_limit};
ghost use Rattle.elements.specs.Elements.{string_part, element_of, element_in, sought_element, find_element_bytes, find_element_answer};

use entries::ElementSize;
use entries::types::element_size;
use format::{Answer, Refusal};
use index::Entry;
use lookups::{seek, shown};
use places::FileOffset;

// String `k` of an entry of strings that lies in a package: it starts where the `k` before it end.
fn string_part(pkg: &[u8], entry: Entry, k: u32) -> Entry
    requires { entry.at.0 + entry.extent ≤ package_limit }
    ensures { result ≡ string_part pkg.now entry (strings_from pkg.now entry.extent entry.at.0 k) }
{
    let at = entry.at;
    let end = at.behind(entry.extent);
    let run = at.strings_end(pkg, end, k);
    match run {
        Some(_) => {
            let place = at.behind(index::extent_to(at, run));
            let next = place.strings_end(pkg, end, 1);
            let extent = index::extent_to(place, next);
            Entry {
                count: 1,
                at: place,
                extent,
                ..entry
            }
        }
        None => Entry {
            count: 1,
            extent: 0,
            ..entry
        },
    }
}

// Element `k` of an entry that lies in a package, as an entry of count 1.
fn element_of(pkg: &[u8], entry: Entry, k: u32) -> Entry
    requires { entry.at.0 + entry.extent ≤ package_limit }
    ensures { result ≡ element_of pkg.now entry k }
{
    match element_size(entry.ty) {
        Some(ElementSize::Bytes(n)) => Entry {
            count: 1,
            at: entry.at.behind(n * k as usize),
            extent: n,
            ..entry
        },
        Some(ElementSize::ToZero) => string_part(pkg, entry, k),
        None => Entry {
            count: 1,
            extent: 0,
            ..entry
        },
    }
}

// The same of any entry: one that lies in no package has an empty element.
pub fn element(pkg: &[u8], entry: Entry, k: u32) -> Entry
    ensures { result ≡ element_in pkg.now entry k }
{
    let from = entry.at.get();
    if from <= FileOffset::LIMIT && entry.extent <= FileOffset::LIMIT - from {
        element_of(pkg, entry, k)
    } else {
        Entry {
            count: 1,
            extent: 0,
            ..entry
        }
    }
}

// Checks 2 to 13, 28, 25 and 26: element `k` of the entry of a structure with the tag and the type.
fn seek_element(pkg: &[u8], which: u32, tag: u32, ty: u32, k: u32) -> Result<Entry, Refusal>
    ensures { result ≡ sought_element pkg.now which tag ty k }
{
    let entry = seek(pkg, which, tag, ty)?;
    if k < entry.count {
        Ok(element_of(pkg, entry, k))
    } else {
        Err(Refusal::new(26, 0))
    }
}

// The bytes of element `k`, a single string with its zero byte; an empty part where a check of 2 to 13, 28, 25 or 26 fails.
pub fn find_element(pkg: &[u8], which: u32, tag: u32, ty: u32, k: u32) -> &[u8]
    ensures { result.now ≡ find_element_bytes pkg.now which tag ty k }
{
    shown(pkg, seek_element(pkg, which, tag, ty, k))
}

// Number and place of an element look-up: 0 and the element's file offset, or the first failing check.
pub fn find_element_answer(pkg: &[u8], which: u32, tag: u32, ty: u32, k: u32) -> Answer
    ensures { result ≡ find_element_answer pkg.now which tag ty k }
{
    let entry = seek_element(pkg, which, tag, ty, k)?;
    Ok(entry.at.get() as u32)
}
