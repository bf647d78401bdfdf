// A book's doses in a lent buffer of bytes.
#![tactic(auto)]

ghost use Rattle.std.specs.Prelude.{◌≡◌, ◌+◌, ◌≤◌, ◌<◌, ◌^◌, [], ◌∷◌, length};
ghost use Rattle.std.proofs.lemmas.List.Edits.{sets};
ghost use Rattle.book.specs.Book.{dose_at};
ghost use Rattle.buffer.specs.Buffer.{numbers_of};
ghost use Rattle.octets.specs.Octets.{bytes_per_dose, number_bytes, with_dose_bytes};

use book::{Dose, Weighings};

// How many bytes a number takes in a buffer of bytes.
pub const NUMBER_BYTES: usize = 4;

// Where a lot stands among the bytes of a dose.
const LOT: usize = 8;

// Puts the twelve bytes of the dose at a place of a book, which has its oxide and its milligrams, from a place of the buffer
// on, as far as that has them: two zero bytes, the six that the body of its record begins with, and the lot.
fn put_body(out: &mut [u8], i: usize, book: &[u8], at: usize)
    requires bytes_per_dose_bound { i + bytes_per_dose < 2 ^ 64 }
    requires at_in_bounds { at + 7 ≤ length book.now }
    ensures { out.new
        ≡ sets out.old i (number_bytes (numbers_of (dose_at book.now at ∷ []))) }
{
    put::four(out, i, 0, 0, book[at + 1], book[at + 2]);
    put::four(
        out,
        i + NUMBER_BYTES,
        book[at + 3],
        book[at + 4],
        book[at + 5],
        book[at + 6],
    );
    put::number(out, i + LOT, Dose::lot_at(book, at).0);
}

// Puts the twelve bytes of the dose at a place of a book from a place of the buffer on, as far as that has them. Where the book
// has the body's first six bytes and the buffer all twelve, no byte is tested by itself.
fn put_dose_bytes(out: &mut [u8], i: usize, book: &[u8], at: usize)
    requires { i + bytes_per_dose < 2 ^ 64 }
    ensures { out.new
        ≡ sets out.old i (number_bytes (numbers_of (dose_at book.now at ∷ []))) }
{
    let len = book.len();
    let room = out.len();
    if 7 <= len && at <= len - 7 && Dose::BYTES <= room && i <= room - Dose::BYTES {
        put_body(out, i, book, at);
        return;
    }
    let dose = Dose::at(book, at);
    put::number(out, i, u32::from(dose.oxide.0));
    put::number(out, i + NUMBER_BYTES, dose.milligrams.0);
    put::number(out, i + LOT, dose.lot.0);
}

// Writes a book's doses at the front of a buffer of bytes, four to a number, big-endian, as far as they fit.
pub fn write_bytes(book: &[u8], out: &mut [u8])
    ensures { out.new ≡ with_dose_bytes book.now out.old }
{
    if out.is_empty() {
        return;
    }
    let mut i = 0;
    for at in Weighings::of(book) {
        put_dose_bytes(out, i, book, at);
        i += Dose::BYTES;
        if out.len() <= i {
            return;
        }
    }
}
