// A list of entries as it is lent: 16 bytes an entry, and the entries' data in a row.
#![tactic(auto, unfolding(crate::specs::Lists::record_shown))]

ghost use Rattle.std.specs.Prelude.{◌≡◌, ◌/◌, length};
ghost use Rattle.lists.specs.Lists.{record_shown, is_whole, sizes_meet};

// The 16 bytes of an entry: its tag, type and count, and the size of its data.
#[derive(Clone, Copy, Default)]
pub struct ListRecord {
    pub tag: u32,
    pub ty: u32,
    pub count: u32,
    pub size: u32,
}

impl ListRecord {
    pub const SIZE: usize = 16;
}

// A list, and the row of its entries' data.
#[derive(Clone, Copy)]
pub struct Lent<'a> {
    pub list: &'a [u8],
    pub row: &'a [u8],
}

impl Lent<'_> {
    // How many whole entries there are.
    pub fn count(&self) -> usize
        ensures { result ≡ length self.now.list.now / 16 }
    {
        self.list.len() / ListRecord::SIZE
    }

    // The 16 bytes of entry `i`; zeros where the list does not have it whole.
    pub fn entry(&self, i: u32) -> ListRecord
        ensures { result ≡ record_shown self.now.list.now i }
    {
        let at = ListRecord::SIZE * i as usize;
        if self.list.len() < at + ListRecord::SIZE {
            return ListRecord::default();
        }
        ListRecord {
            tag: be::be32(self.list, at),
            ty: be::be32(self.list, at + 4),
            count: be::be32(self.list, at + 8),
            size: be::be32(self.list, at + 12),
        }
    }

    // Whether the list is whole entries.
    pub fn is_whole(&self) -> bool
        ensures { result ≡ is_whole self.now.list.now }
    {
        self.list.len() % ListRecord::SIZE == 0
    }

    // Whether the sizes of the entries together are the row's length.
    pub fn sizes_meet(&self) -> bool
        ensures { result ≡ sizes_meet self.now.list.now self.now.row.now }
    {
        let n = self.count();
        let mut left = self.row.len();
        for i in 0..n {
            let size = be::be32(self.list, ListRecord::SIZE * i + 12) as usize;
            if left < size {
                return false;
            }
            left -= size;
        }
        left == 0
    }
}
