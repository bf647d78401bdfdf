// The header record and the index record.
ghost use Rattle.std.specs.Prelude.{◌≡◌, ◌+◌, ◌≤◌, length};
ghost use Rattle.be.specs.Numbers.{be32_at};
ghost use Rattle.format.specs.Sizes.{index_record_size};
ghost use Rattle.format.specs.Records.{header_record_at, index_record_at};

use places::{FileOffset, StoreOffset};

// The first 16 bytes of a header structure.
#[derive(Clone, Copy)]
pub struct HeaderRecord {
    pub magic: u32,
    pub reserved: u32,
    pub nindex: u32,
    pub hsize: u32,
}

impl HeaderRecord {
    pub const SIZE: usize = 16;

    pub const MAGIC: usize = 0;

    pub const RESERVED: usize = 4;

    pub const NINDEX: usize = 8;

    pub const HSIZE: usize = 12;
    // The largest number of index records.
    pub const NINDEX_LIMIT: u32 = 512;

    // The header record at a place of the file.
    pub fn at(pkg: &[u8], place: FileOffset) -> Self
        ensures { result ≡ header_record_at pkg.now place.0 }
    {
        Self {
            magic: place.number_behind(pkg, Self::MAGIC),
            reserved: place.number_behind(pkg, Self::RESERVED),
            nindex: place.number_behind(pkg, Self::NINDEX),
            hsize: place.number_behind(pkg, Self::HSIZE),
        }
    }
}

// One record of an index: an entry's tag, type, place of its data and count.
#[derive(Clone, Copy)]
pub struct IndexRecord {
    pub tag: u32,
    pub ty: u32,
    pub offset: StoreOffset,
    pub count: u32,
}

impl IndexRecord {
    pub const SIZE: usize = 16;

    pub const TAG: u32 = 0;

    pub const TYPE: u32 = 4;

    pub const OFFSET: u32 = 8;

    pub const COUNT: u32 = 12;

    // The index record at a place of the file.
    pub fn at(pkg: &[u8], place: FileOffset) -> Self
        ensures { result ≡ index_record_at pkg.now place.0 }
    {
        Self {
            tag: place.number_behind(pkg, Self::TAG as usize),
            ty: place.number_behind(pkg, Self::TYPE as usize),
            offset: StoreOffset::of(place.number_behind(pkg, Self::OFFSET as usize)),
            count: place.number_behind(pkg, Self::COUNT as usize),
        }
    }

    // The same where the package has it whole.
    pub(crate) fn within(pkg: &[u8], place: FileOffset) -> Self
        requires { place.0 + index_record_size ≤ length pkg.now }
        ensures { result ≡ index_record_at pkg.now place.0 }
    {
        let at = place.get();
        Self {
            tag: number_within(pkg, at + Self::TAG as usize),
            ty: number_within(pkg, at + Self::TYPE as usize),
            offset: StoreOffset::of(number_within(pkg, at + Self::OFFSET as usize)),
            count: number_within(pkg, at + Self::COUNT as usize),
        }
    }
}

// The 32-bit number at a place of a package that has it whole.
pub(crate) fn number_within(pkg: &[u8], at: usize) -> u32
    requires { at + 4 ≤ length pkg.now }
    ensures { result ≡ be32_at pkg.now at }
{
    be::join32(pkg[at], pkg[at + 1], pkg[at + 2], pkg[at + 3])
}
