// Checks 14 to 24, and 27, over a package's two structures.
ghost use Rattle.std.specs.Prelude.{◌≡◌, ℕ, ◌≤◌, length};
ghost use Rattle.format.specs.Sizes.{package_limit};
ghost use Rattle.book.specs.Doses.{doses};
ghost use Rattle.reading.specs.Editions.{edition_of};
ghost use Rattle.reading.specs.Reading.{book_in, weight_in, sum_check, book_part, opened_check};
ghost use Rattle.reading.specs.Weighings.{weighing_as};

use book::{Book, Dose};
use catalogue::Line;
use format::{Answer, Refusal, Section, Verdict};
use package::Opened;

// The batch weight's tag and line.
#[derive(Drop)]
pub struct Batch {}

impl Batch {
    pub const TAG: u32 = 20002;

    pub const TYPE: u32 = 4;

    pub const LINE: usize = 81;
}

// The type of the book's entry: bin.
#[derive(Drop)]
pub struct BookEntry {}

impl BookEntry {
    pub const TYPE: u32 = 7;
}

// The book of a header: what a look-up in it shows for 20001, bin.
pub(crate) fn book(pkg: &[u8], header: Section) -> &[u8]
    ensures { result.now ≡ book_in pkg.now header }
{
    lookups::find_in(pkg, header, Book::TAG, BookEntry::TYPE)
}

// The batch weight of a header: the number that a look-up shows for 20002, int32.
fn weight(pkg: &[u8], header: Section) -> u32
    ensures { result ≡ weight_in pkg.now header }
{
    be::be32(lookups::find_in(pkg, header, Batch::TAG, Batch::TYPE), 0)
}

// Check 23, for the sum of a book's doses.
fn sum_check(edition: u32, pkg: &[u8], header: Section, sum: u64) -> Verdict
    ensures { result ≡ sum_check (edition_of edition) pkg.now header sum }
{
    if !Line::at(Batch::LINE).in_edition(edition) {
        return Ok(());
    }
    if weight(pkg, header) as u64 == sum {
        return Ok(());
    }
    Err(Refusal::new(23, Batch::TAG))
}

// Checks 19 to 24 for a book.
fn weigh_book(edition: u32, pkg: &[u8], header: Section, room: usize, bytes: &[u8]) -> Answer
    ensures { result ≡ weighing_as (book_part (edition_of edition) pkg.now header room bytes.now)
        (length (doses bytes.now)) }
{
    let weighed = book::weigh(edition, bytes)?;
    sum_check(edition, pkg, header, weighed.sum)?;
    let needed = Dose::NUMBERS * weighed.count;
    if room < needed as usize {
        return Err(Refusal::new(24, needed));
    }
    Ok(weighed.count)
}

// Checks 14 to 18, 27 and 19 to 24 for a package's two structures and its book.
pub(crate) fn weigh(edition: u32, pkg: &[u8], opened: Opened, room: usize, bytes: &[u8]) -> Answer
    requires { length pkg.now ≤ package_limit }
    ensures { result ≡ weighing_as
        (opened_check (edition_of edition) pkg.now opened.signature opened.header room bytes.now)
        (length (doses bytes.now)) }
{
    let Opened { signature, header } = opened;
    rules::check(edition, pkg, pkg.len() as u32, signature, header)?;
    verify::check(pkg, signature, header)?;
    weigh_book(edition, pkg, header, room, bytes)
}
