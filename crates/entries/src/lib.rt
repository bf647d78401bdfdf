// One index record: checks 9 to 13 in order.
#![tactic(auto, unfolding(format::specs::Verdicts::both, format::specs::Verdicts::check, crate::specs::Entries::count_right, crate::specs::Entries::data_end, crate::specs::Entries::data_check))]

ghost use Rattle.std.specs.Prelude.{◌≡◌, [], not, Some};
ghost use Rattle.format.specs.Verdicts.{check, both, pass};
ghost use Rattle.entries.specs.declared.types.ElementSize.TheVariants.{Bytes, ToZero};
ghost use Rattle.entries.specs.Types.{element_size};
ghost use Rattle.entries.specs.Entries.{is_single, count_right, end_for, data_end, data_check};

pub mod types;

use format::{IndexRecord, Refusal, Section, Structure, Verdict};
pub use types::ElementSize;
use types::element_size;

// Whether the entries of a type have one element only.
fn is_single(structure: Structure, ty: u32) -> bool
    ensures { result ≡ is_single structure ty }
{
    match ty {
        6 => true,
        9 => match structure {
            Structure::Signature => true,
            Structure::Header => false,
        },
        _ => false,
    }
}

// Check 10.
pub fn count_right(structure: Structure, e: IndexRecord) -> bool
    ensures { result ≡ count_right structure e }
{
    if is_single(structure, e.ty) {
        return e.count == 1;
    }
    1 <= e.count
}

// The place in the file behind an entry's data, where that is inside the store (check 12).
pub fn data_end(s: &[u8], section: Section, e: IndexRecord) -> Option<usize>
    ensures { result ≡ data_end s.now section e }
{
    let size = element_size(e.ty)?;
    let from = section.in_file(e.offset);
    match size {
        ElementSize::Bytes(n) => {
            let bytes = n * e.count as usize;
            if e.offset.get() as usize + bytes <= section.hsize as usize {
                Some(from.get() + bytes)
            } else {
                None
            }
        }
        ElementSize::ToZero => {
            let end = section.end();
            from.strings_end(s, end, e.count)
        }
    }
}

// Checks 10 to 12 for a record that is `e` and starts at `place`, of elements of `n` bytes each.
fn fixed_check(
    structure: Structure,
    section: Section,
    place: u32,
    e: IndexRecord,
    n: usize,
) -> Verdict
    requires { Some (Bytes n) ≡ element_size e.ty }
    ensures { result ≡ data_check structure place e (end_for (Some (Bytes n)) [] section e) }
{
    if !count_right(structure, e) {
        return Err(Refusal::new(10, place));
    }
    let offset = e.offset.get() as usize;
    if offset % n != 0 {
        return Err(Refusal::new(11, place));
    }
    let bytes = n * e.count as usize;
    let end = offset + bytes;
    if (section.hsize as usize) < end {
        return Err(Refusal::new(12, place));
    }
    Ok(())
}

// The same for an entry of strings.
fn strings_check(
    structure: Structure,
    s: &[u8],
    section: Section,
    place: u32,
    e: IndexRecord,
) -> Verdict
    requires { Some ToZero ≡ element_size e.ty }
    ensures { result ≡ data_check structure place e (data_end s.now section e) }
{
    if !count_right(structure, e) {
        return Err(Refusal::new(10, place));
    }
    let from = section.in_file(e.offset);
    let to = section.end();
    if from.strings_end(s, to, e.count).is_none() {
        return Err(Refusal::new(12, place));
    }
    Ok(())
}

// Checks 9 to 12 for a record that is `e` and starts at `place`.
fn data_check(
    structure: Structure,
    s: &[u8],
    section: Section,
    place: u32,
    e: IndexRecord,
) -> Verdict
    ensures { result ≡ data_check structure place e (data_end s.now section e) }
{
    match element_size(e.ty) {
        Some(ElementSize::Bytes(n)) => fixed_check(structure, section, place, e, n),
        Some(ElementSize::ToZero) => strings_check(structure, s, section, place, e),
        None => Err(Refusal::new(9, place)),
    }
}

// Checks 9 to 13 for a record that is `e` and starts at `place`; `repeated` says whether an earlier one has its tag.
pub fn entry_check(
    structure: Structure,
    s: &[u8],
    section: Section,
    place: u32,
    e: IndexRecord,
    repeated: bool,
) -> Verdict
    ensures { result ≡ both (data_check structure place e (data_end s.now section e)) (check (not repeated) 13 place pass) }
{
    data_check(structure, s, section, place, e)?;
    if repeated {
        return Err(Refusal::new(13, place));
    }
    Ok(())
}
