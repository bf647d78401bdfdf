// A book's doses in a lent buffer of numbers.
#![tactic(auto)]

ghost use Rattle.std.specs.Prelude.{◌≡◌, ◌+◌, ◌<◌, ◌^◌, [], ◌∷◌, set};
ghost use Rattle.std.proofs.lemmas.List.Edits.{sets};
ghost use Rattle.buffer.specs.Buffer.{numbers_per_dose, numbers_of, with_doses};

use book::{Dose, Weighings};

// How many numbers a dose takes in a buffer of numbers.
const NUMBERS: usize = Dose::NUMBERS as usize;

// Puts a number at a place of the buffer, where that has it.
fn put(out: &mut [u32], i: usize, n: u32)
    ensures { out.new ≡ set out.old i n }
{
    if i < out.len() {
        out[i] = n;
    }
}

// Puts a dose's three numbers from a place of the buffer on, as far as that has them.
fn put_dose(out: &mut [u32], i: usize, dose: Dose)
    requires { i + numbers_per_dose < 2 ^ 64 }
    ensures { out.new ≡ sets out.old i (numbers_of (dose ∷ [])) }
{
    put(out, i, u32::from(dose.oxide.0));
    put(out, i + 1, dose.milligrams.0);
    put(out, i + 2, dose.lot.0);
}

// Writes a book's doses at the front of a buffer, oxide, milligrams and lot, as far as they fit.
pub fn write(book: &[u8], out: &mut [u32])
    ensures { out.new ≡ with_doses book.now out.old }
{
    if out.is_empty() {
        return;
    }
    let mut i = 0;
    for at in Weighings::of(book) {
        put_dose(out, i, Dose::at(book, at));
        i += NUMBERS;
        if out.len() <= i {
            return;
        }
    }
}
