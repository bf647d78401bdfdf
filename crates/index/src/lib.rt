// The entry with a tag and a type in one structure.
#![tactic(auto)]

ghost use Rattle.std.specs.Prelude.{◌≡◌};
ghost use Rattle.index.specs.Lookup.{extent_to, entry_of, find_in};

use entries::data_end;
use format::{IndexRecord, Section};
use places::FileOffset;

// An entry: its type and count, where its data starts in the file, and how many bytes it has.
#[derive(Clone, Copy)]
pub struct Entry {
    pub ty: u32,
    pub count: u32,
    pub at: FileOffset,
    pub extent: usize,
}

// How many bytes lie between a place and an end.
pub fn extent_to(from: FileOffset, end: Option<usize>) -> usize
    ensures { result ≡ extent_to from.0 end }
{
    end.map_or(0, |to| to.saturating_sub(from.get()))
}

// The entry of an index record whose data ends at a place.
pub fn entry_of(section: Section, e: IndexRecord, end: Option<usize>) -> Entry
    ensures { result ≡ entry_of section e end }
{
    let at = section.in_file(e.offset);
    Entry {
        ty: e.ty,
        count: e.count,
        at,
        extent: extent_to(at, end),
    }
}

// The first entry of a structure that has the tag and the type.
pub fn find(s: &[u8], section: Section, tag: u32, ty: u32) -> Option<Entry>
    ensures { result ≡ find_in s.now section tag ty }
{
    let n = section.nindex;
    let first = section.index_record(0);
    let index = first.part(s, s.len());
    let mut next = 0;
    while next < n {
        let i = among::first_with(index, n, next, tag);
        if n <= i {
            return None;
        }
        next = i + 1;
        let place = section.index_record(i);
        let e = IndexRecord::at(s, place);
        if e.ty == ty {
            let end = data_end(s, section, e);
            return Some(entry_of(section, e, end));
        }
    }
    None
}
