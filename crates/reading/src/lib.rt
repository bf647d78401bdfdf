// The reading at an edition: checks 1, 23 and 24, and 1 to 13 with 28, 14 to 18, 27 and 19 to 24 in order.
#![tactic(auto, unfolding(format::specs::Verdicts::both, format::specs::Verdicts::check, package::specs::Package::opened, crate::specs::Reading::edition_check, crate::specs::Weighings::opened_at, crate::specs::Reading::sum_check, crate::specs::Reading::opened_check))]

ghost use Rattle.std.specs.Prelude.{◌≡◌, ℕ, length};
ghost use Rattle.reading.specs.Reading.{edition_check};
ghost use Rattle.reading.specs.Weighings.{opened_at};
ghost use Rattle.reading.specs.Buffers.{Read, ReadBytes};

pub mod opened;

use format::{Answer, Refusal, Verdict};
use package::Opened;

// The last edition.
pub const LAST: u32 = 3;

// Check 1.
fn edition_check(edition: u32) -> Verdict
    ensures { result ≡ edition_check edition }
{
    if edition < 1 {
        return Err(Refusal::new(1, 0));
    }
    if LAST < edition {
        return Err(Refusal::new(1, 0));
    }
    Ok(())
}

// Checks 1 to 13 and 28.
fn open_at(edition: u32, pkg: &[u8]) -> Result<Opened, Refusal>
    ensures { result ≡ opened_at edition pkg.now }
{
    edition_check(edition)?;
    package::open(pkg)
}

// Reads a package at an edition. Success is 0 with the dose count; the doses stand at the front of the buffer, oxide,
// milligrams and lot, and nothing behind them changes. A refusal is the first failing check of 1 to 13 with 28, 14 to 18, 27
// and 19 to 24, and changes nothing.
pub fn read(edition: u32, pkg: &[u8], doses: &mut [u32]) -> Answer
    ensures { Read edition pkg.now doses.old result doses.new }
{
    let opened = open_at(edition, pkg)?;
    let book = opened::book(pkg, opened.header);
    let count = opened::weigh(edition, pkg, opened, doses.len(), book)?;
    if count == 0 {
        return Ok(count);
    }
    buffer::write(book, doses);
    Ok(count)
}

// The same into a buffer of bytes, four to a number, big-endian, a remainder unused.
pub fn read_bytes(edition: u32, pkg: &[u8], doses: &mut [u8]) -> Answer
    ensures { ReadBytes edition pkg.now doses.old result doses.new }
{
    let opened = open_at(edition, pkg)?;
    let book = opened::book(pkg, opened.header);
    let count = opened::weigh(edition, pkg, opened, doses.len() / 4, book)?;
    if count == 0 {
        return Ok(count);
    }
    octets::write_bytes(book, doses);
    Ok(count)
}
