// A header structure: where its parts lie, and its index records.
ghost use Rattle.std.specs.Prelude.{◌≡◌, ◌&&◌, ◌+◌, length, leb, ltb};
ghost use Rattle.be.specs.Numbers.{be32_at};
ghost use Rattle.format.specs.Places.{record_place, store_place, section_end, in_file};
ghost use Rattle.format.specs.Records.{index_record_at};

use crate::records::{HeaderRecord, IndexRecord, number_within};
use places::{FileOffset, Start, StoreOffset};

// Which of a package's two header structures.
#[derive(Clone, Copy)]
pub enum Structure {
    Signature,
    Header,
}

// Where a structure starts in the file, its number of index records and its store's size.
#[derive(Clone, Copy)]
pub struct Section {
    pub start: Start,
    pub nindex: u32,
    pub hsize: u32,
}

impl Section {
    // Where index record `i` starts.
    pub fn index_record(self, i: u32) -> FileOffset
        ensures { result.0 ≡ record_place self i }
    {
        let start = self.start.in_file();
        start.behind(HeaderRecord::SIZE + IndexRecord::SIZE * i as usize)
    }

    // Where the store starts.
    pub fn store(self) -> FileOffset
        ensures { result.0 ≡ store_place self }
    {
        let start = self.start.in_file();
        start.behind(HeaderRecord::SIZE + IndexRecord::SIZE * self.nindex as usize)
    }

    // Where the structure ends, which is where its store does.
    pub fn end(self) -> FileOffset
        ensures { result.0 ≡ section_end self }
    {
        let store = self.store();
        store.behind(self.hsize as usize)
    }

    // The place in the file of a place in the store: the one conversion of the two.
    pub fn in_file(self, offset: StoreOffset) -> FileOffset
        ensures { result.0 ≡ in_file self offset }
    {
        let store = self.store();
        store.behind(offset.get() as usize)
    }

    // Whether the package has the first `n` index records whole, and `i` is one of them.
    fn has_record(self, pkg: &[u8], n: u32, i: u32) -> bool
        ensures { result ≡ (leb (record_place self n) (length pkg.now) && ltb i n) }
    {
        let end = self.index_record(n);
        if pkg.len() < end.get() {
            return false;
        }
        i < n
    }

    // The number of index record `i` that starts `at` bytes behind the record's start. One of the first `n` records, where
    // the package has those whole, is read at once.
    pub fn number(self, pkg: &[u8], n: u32, i: u32, at: u32) -> u32
        ensures { result ≡ be32_at pkg.now (record_place self i + at) }
    {
        let record = self.index_record(i);
        if self.has_record(pkg, n, i) {
            if at <= IndexRecord::COUNT {
                return number_within(pkg, record.get() + at as usize);
            }
        }
        record.number_behind(pkg, at as usize)
    }

    // Index record `i`, likewise.
    #[inline(always)]
    pub fn record(self, pkg: &[u8], n: u32, i: u32) -> IndexRecord
        ensures { result ≡ index_record_at pkg.now (record_place self i) }
    {
        let place = self.index_record(i);
        if self.has_record(pkg, n, i) {
            return IndexRecord::within(pkg, place);
        }
        IndexRecord::at(pkg, place)
    }
}
