// The weighed records of a book, one after the other.
ghost use Rattle.std.specs.Prelude.{◌≡◌};
ghost use Rattle.std.specs.Iterator.{YieldsFirst, item_count};
ghost use Rattle.book.specs.Book.{places};
ghost use Rattle.book.specs.Doses.{weighed_of};
ghost use Rattle.book.specs.Weighings.{left};

use crate::{body_size, is_weighed};

// The places of a book's weighed records, in order.
#[derive(Drop)]
pub struct Weighings<'b> {
    book: &'b [u8],
    at: usize,
}

impl<'b> Weighings<'b> {
    pub fn of(book: &'b [u8]) -> Self
        ensures { left result ≡ weighed_of book.now (places book.now) }
    {
        Self { book, at: 0 }
    }
}

impl<'b> Iterator for Weighings<'b> {
    type Item = usize;

    ghost next_gives = { YieldsFirst left };

    ghost remaining = { item_count left };

    fn next(&mut self) -> Option<usize> {
        while self.at < self.book.len() {
            let here = self.at;
            let kind = self.book[here];
            self.at = here + 1 + body_size(kind);
            if is_weighed(kind) {
                return Some(here);
            }
        }
        None
    }
}
