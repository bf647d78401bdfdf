// A dose: an oxide, its weight and its lot.
ghost use Rattle.std.specs.Prelude.{◌≡◌, ◌+◌, ◌≤◌, length};
ghost use Rattle.book.specs.Book.{dose_at, dose_lawful};

// An oxide's code.
#[derive(Clone, Copy, PartialEq, Eq, Default, Debug)]
pub struct Oxide(pub u16);

// A weight in milligrams.
#[derive(Clone, Copy, PartialEq, Eq, Default, Debug)]
pub struct Milligrams(pub u32);

// The number of a lot; 0 where the record has none.
#[derive(Clone, Copy, PartialEq, Eq, Default, Debug)]
pub struct Lot(pub u32);

#[derive(Clone, Copy, PartialEq, Eq, Default, Debug)]
pub struct Dose {
    pub oxide: Oxide,
    pub milligrams: Milligrams,
    pub lot: Lot,
}

impl Dose {
    pub const OXIDE: usize = 1;

    pub const MILLIGRAMS: usize = 3;

    pub const LOT: usize = 7;
    // The kind whose body has a lot.
    pub const LOT_KIND: u8 = 0xAA;
    // How many numbers a dose takes in a buffer.
    pub const NUMBERS: u32 = 3;
    // How many bytes it takes in a buffer of bytes.
    pub const BYTES: usize = 12;

    // The lot of the weighed record at a place of a book.
    #[tactic(auto, using(crate::proofs::KindLaws::lot_of))]
    pub fn lot_at(book: &[u8], at: usize) -> Lot
        ensures { result ≡ (dose_at book.now at).lot }
    {
        if at < book.len() && book[at] == Self::LOT_KIND {
            return Lot(be::be32(book, at + Self::LOT));
        }
        Lot(0)
    }

    // The dose of the weighed record at a place of a book.
    pub fn at(book: &[u8], at: usize) -> Self
        ensures { result ≡ dose_at book.now at }
    {
        if book.len() <= at {
            return Self::default();
        }
        if Self::LOT <= book.len() - at {
            return Self::within(book, at);
        }
        Self {
            oxide: Oxide(be::be16(book, at + Self::OXIDE)),
            milligrams: Milligrams(be::be32(book, at + Self::MILLIGRAMS)),
            lot: Self::lot_at(book, at),
        }
    }

    // The same where the book has oxide and milligrams whole.
    #[tactic(auto, unfolding(be::specs::Numbers::be16_at, be::specs::Numbers::be32_at))]
    pub(crate) fn within(book: &[u8], at: usize) -> Self
        requires { at + 7 ≤ length book.now }
        ensures { result ≡ dose_at book.now at }
    {
        let o = at + Self::OXIDE;
        let m = at + Self::MILLIGRAMS;
        Self {
            oxide: Oxide(be::join16(book[o], book[o + 1])),
            milligrams: Milligrams(be::join32(book[m], book[m + 1], book[m + 2], book[m + 3])),
            lot: Self::lot_at(book, at),
        }
    }

    // Check 22: oxide 1 to 999, milligrams 1 to 5,000,000.
    #[tactic(auto, unfolding(crate::specs::Book::weight_lawful))]
    pub fn lawful(self) -> bool
        ensures { result ≡ dose_lawful self }
    {
        (1..=999).contains(&self.oxide.0) && (1..=5_000_000).contains(&self.milligrams.0)
    }
}
