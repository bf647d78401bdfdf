// The records of the catalogue's tags, gathered in one pass over an index.
#![tactic(auto, unfolding(crate::specs::Tables::slot_of, crate::specs::Tables::shown_by, crate::specs::Tables::noted))]

ghost use Rattle.std.specs.Prelude.{◌≡◌, ◌<◌, IfSome};
ghost use Rattle.entries.specs.Entries.{record_at};
ghost use Rattle.tags.specs.Tags.{has, count_in, number_in};
ghost use Rattle.tags.specs.Tables.{slots, slot_of, shown_by, noted, empty_table, gathered};

use format::{IndexRecord, Section};
use places::StoreOffset;

// What the record of a slot's tag says behind its tag.
#[derive(Clone, Copy)]
struct Found {
    ty: u32,
    offset: StoreOffset,
    count: u32,
}

// A table of records: a slot for each tag of the catalogue.
#[derive(Drop)]
pub struct Table {
    slots: [Option<Found>; Table::SLOTS],
}

// The slot of a tag, where it has one.
#[inline(always)]
fn slot(tag: u32) -> Option<usize>
    ensures is { result ≡ slot_of tag }
    ensures within { IfSome result (λ k. k < slots) }
{
    if (1000..=1055).contains(&tag) {
        return Some((tag - 1000) as usize);
    }
    if (1080..=1132).contains(&tag) {
        return Some((tag - 1024) as usize);
    }
    match tag {
        1064 => Some(109),
        20001 => Some(110),
        20002 => Some(111),
        62 => Some(112),
        63 => Some(113),
        100 => Some(114),
        _ => None,
    }
}

impl Table {
    // How many tags have a slot.
    pub const SLOTS: usize = 115;

    // A table with no record.
    pub fn new() -> Self
        ensures { result ≡ empty_table }
    {
        Self {
            slots: [None; Self::SLOTS],
        }
    }

    // Puts the records of the catalogue's tags of an index in the table: from the last record to the first, so that the first
    // of a tag stays.
    #[tactic(auto, using(crate::proofs::GatherLaws::none_yet, crate::proofs::GatherLaws::turn, crate::proofs::GatherLaws::spent))]
    pub fn gather(&mut self, s: &[u8], section: Section)
        ensures { self.new ≡ gathered s.now section self.old }
    {
        for i in (0..section.nindex).rev() {
            self.note(section.record(s, section.nindex, i));
        }
    }

    // Puts a record in its tag's slot, where it has one.
    fn note(&mut self, e: IndexRecord)
        ensures { self.new ≡ noted e self.old }
    {
        if let Some(k) = slot(e.tag) {
            self.slots[k] = Some(Found {
                ty: e.ty,
                offset: e.offset,
                count: e.count,
            });
        }
    }

    // What the table shows for a tag.
    #[inline(always)]
    pub fn look(&self, tag: u32) -> Option<IndexRecord>
        ensures { result ≡ shown_by self.now tag }
    {
        self.slots[slot(tag)?].map(|found| IndexRecord {
            tag,
            ty: found.ty,
            offset: found.offset,
            count: found.count,
        })
    }

    // Whether the table has the tag.
    pub fn has(&self, tag: u32) -> bool
        ensures { result ≡ has (shown_by self.now) tag }
    {
        self.look(tag).is_some()
    }

    // The count of a tag; 0 where it is absent.
    pub fn count(&self, tag: u32) -> u32
        ensures { result ≡ count_in (shown_by self.now) tag }
    {
        self.look(tag).map_or(0, |e| e.count)
    }

    // The 32-bit number that a tag's data begins with; 0 where the tag is absent.
    pub fn number(&self, pkg: &[u8], section: Section, tag: u32) -> u32
        ensures { result ≡ number_in pkg.now section (shown_by self.now) tag }
    {
        self.look(tag)
            .map_or(0, |e| section.in_file(e.offset).number(pkg))
    }
}
