// Places in the file and in a store, and what a package has at a place.
// The fields are shut: outside this crate no place of the file is made from a number.
#![tactic(auto)]

ghost use Rattle.std.specs.Prelude.{◌≡◌, ◌+◌, ◌-◌, get_or, take, drop};
ghost use Rattle.be.specs.Numbers.{be32_at};
ghost use Rattle.strings.specs.Strings.{strings_from};
ghost use Rattle.places.specs.Behind.{behind};

// A place in the file.
#[derive(Clone, Copy)]
pub struct FileOffset(usize);

// A place in a store, from the store's start.
#[derive(Clone, Copy)]
pub struct StoreOffset(u32);

// Where a structure starts: a place in the file of 32 bits, so that every place in the structure fits.
#[derive(Clone, Copy)]
pub struct Start(u32);

impl FileOffset {
    // The largest length of a package.
    pub const LIMIT: usize = 65536;
    // The last place of all.
    const LAST: usize = 18446744073709551615;

    // How many bytes of the file stand before it.
    pub fn get(self) -> usize
        ensures { result ≡ self.0 }
    {
        self.0
    }

    // The place `n` bytes behind it, or the last place of all.
    pub fn behind(self, n: usize) -> FileOffset
        ensures { result.0 ≡ behind self.0 n }
    {
        if Self::LAST - self.0 < n {
            return FileOffset(Self::LAST);
        }
        FileOffset(self.0 + n)
    }

    // The byte of a package at this place.
    pub fn byte(self, pkg: &[u8]) -> u8
        ensures { result ≡ get_or pkg.now self.0 0 }
    {
        be::byte_at(pkg, self.0)
    }

    // The 32-bit number of a package at this place.
    pub fn number(self, pkg: &[u8]) -> u32
        ensures { result ≡ be32_at pkg.now self.0 }
    {
        be::be32(pkg, self.0)
    }

    // The 32-bit number of a package `n` bytes behind this place.
    pub fn number_behind(self, pkg: &[u8], n: usize) -> u32
        ensures { result ≡ be32_at pkg.now (self.0 + n) }
    {
        let place = self.behind(n);
        place.number(pkg)
    }

    // The part of a package of `extent` bytes from this place.
    pub fn part(self, pkg: &[u8], extent: usize) -> &[u8]
        ensures { result.now ≡ take extent (drop self.0 pkg.now) }
    {
        be::part(pkg, self.0, extent)
    }

    // The place behind `count` strings of a package in a row from this place, all before `end`.
    pub fn strings_end(self, pkg: &[u8], end: FileOffset, count: u32) -> Option<usize>
        ensures { result ≡ strings_from pkg.now (end.0 - self.0) self.0 count }
    {
        strings::strings_end(pkg, self.0, end.0, count)
    }
}

impl StoreOffset {
    pub fn of(n: u32) -> StoreOffset
        ensures { result.0 ≡ n }
    {
        StoreOffset(n)
    }

    // How many bytes of the store stand before it.
    pub fn get(self) -> u32
        ensures { result ≡ self.0 }
    {
        self.0
    }
}

impl Start {
    pub fn of(n: u32) -> Start
        ensures { result.0 ≡ n }
    {
        Start(n)
    }

    // How many bytes of the file stand before it.
    pub fn get(self) -> u32
        ensures { result ≡ self.0 }
    {
        self.0
    }

    // The start as a place in the file.
    pub fn in_file(self) -> FileOffset
        ensures { result.0 ≡ self.0 }
    {
        FileOffset(self.0 as usize)
    }
}
