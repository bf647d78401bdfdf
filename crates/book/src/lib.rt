// A book's kinds, records and doses: checks 19 to 22.
// It knows the book's bytes alone.
#![tactic(auto, unfolding(format::specs::Verdicts::both, format::specs::Verdicts::check, crate::specs::Book::length_check, crate::specs::Book::book_check, crate::specs::Doses::weighed))]

ghost use Rattle.std.specs.Prelude.{◌≡◌, ◌-◌, ◌≤◌, ◌<◌, length, MatchResult, Err};
ghost use Rattle.format.specs.Verdicts.{pass};
ghost use Rattle.book.specs.Kinds.{is_weighed, body_size, is_bare, is_known};
ghost use Rattle.book.specs.Book.{book_limit, places, past_bare, record_check, records_check, length_check};
ghost use Rattle.book.specs.Doses.{dose_of, doses, sum_of, weighed_as, weighed};

pub mod dose;
pub mod weighings;

pub use dose::{Dose, Lot, Milligrams, Oxide};
use format::{Refusal, Verdict};
pub use weighings::Weighings;

// A book that passed checks 19 to 22: the number of its doses, and the sum of their milligrams.
#[derive(Clone, Copy, PartialEq, Eq, Debug)]
pub struct Weighed {
    pub count: u32,
    pub sum: u64,
}

// Limits of a book.
#[derive(Drop)]
pub struct Book {}

impl Book {
    pub const LIMIT: usize = 4096;

    pub const TAG: u32 = 20001;
}

// Whether a kind is weighed.
pub fn is_weighed(kind: u8) -> bool
    ensures { result ≡ is_weighed kind }
{
    128 <= kind
}

// How many bytes the body of a kind has.
pub fn body_size(kind: u8) -> usize
    ensures { result ≡ body_size kind }
{
    kind as usize % 16
}

// Whether an edition knows a kind: each kind and the edition that lists it.
#[tactic(auto, using(crate::proofs::KindLaws::held_if), unfolding(crate::specs::Kinds::kinds_in, crate::specs::Kinds::kind_table))]
fn known(edition: u32, kind: u8) -> bool
    ensures { result ≡ is_known edition kind }
{
    match kind {
        0x02 | 0x86 => 1 <= edition,
        0x14 | 0x98 => 2 <= edition,
        0xAA => 3 <= edition,
        _ => false,
    }
}

// Check 19.
fn length_check(book: &[u8]) -> Verdict
    ensures { result ≡ length_check book.now }
{
    if Book::LIMIT < book.len() {
        return Err(Refusal {
            number: 19,
            place: Book::TAG,
        });
    }
    Ok(())
}

// Whether a kind is a remark without a body. Such a record is passed without its end being computed from its kind, so
// that the processor need not wait for the one to find the next.
fn is_bare(kind: u8) -> bool
    ensures { result ≡ is_bare kind }
{
    !is_weighed(kind) && body_size(kind) == 0
}

// The first place from a place on where no remark without a body stands; the book's end where there is none.
fn past_bare(book: &[u8], at: usize) -> usize
    requires { at ≤ length book.now }
    ensures { result ≡ past_bare book.now (length book.now - at) at }
{
    for i in at..book.len() {
        if !is_bare(book[i]) {
            return i;
        }
    }
    book.len()
}

// Checks 20 to 22 for the record at a place of a book, and its dose where it is weighed.
#[tactic(auto, using(crate::proofs::KindLaws::six), unfolding(format::specs::Verdicts::check, crate::specs::Book::record_check))]
fn record(edition: u32, book: &[u8], at: usize) -> Result<Option<Dose>, Refusal>
    requires at_in_bounds { at < length book.now }
    requires short { length book.now ≤ book_limit }
    ensures { MatchResult result
        (λ dose. (record_check (is_known edition) book.now at ≡ pass) × (dose ≡ dose_of book.now at))
        (λ refusal. record_check (is_known edition) book.now at ≡ Err refusal) }
{
    let kind = book[at];
    let weighed = is_weighed(kind);
    let place = at as u32;
    if weighed && !known(edition, kind) {
        return Err(Refusal { number: 20, place });
    }
    if book.len() < at + 1 + body_size(kind) {
        return Err(Refusal { number: 21, place });
    }
    if !weighed {
        return Ok(None);
    }
    let dose = Dose::within(book, at);
    if !dose.lawful() {
        return Err(Refusal { number: 22, place });
    }
    Ok(Some(dose))
}

// Checks 20 to 22 for each record in turn, with the number and the sum of the doses.
#[inline(never)]
fn records(edition: u32, book: &[u8]) -> Result<Weighed, Refusal>
    requires { length book.now ≤ book_limit }
    ensures { result ≡ weighed_as (records_check (is_known edition) book.now (places book.now))
        (length (doses book.now)) (sum_of (doses book.now)) }
{
    let mut at = 0;
    let mut count = 0;
    let mut sum: u64 = 0;
    while at < book.len() {
        let kind = book[at];
        if is_bare(kind) {
            at = past_bare(book, at + 1);
            continue;
        }
        let end = at + 1 + body_size(kind);
        let found = record(edition, book, at)?;
        at = end;
        if let Some(dose) = found {
            count += 1;
            sum += u64::from(dose.milligrams.0);
        }
    }
    Ok(Weighed { count, sum })
}

// Checks 19 to 22 at an edition, with the number and the sum of the doses.
pub fn weigh(edition: u32, book: &[u8]) -> Result<Weighed, Refusal>
    ensures { result ≡ weighed edition book.now }
{
    length_check(book)?;
    records(edition, book)
}
