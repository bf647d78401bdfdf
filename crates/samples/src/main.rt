// Samples of documents 01 and 02: those marked P and others proved, the rest run.
// The program looks up or reads each package of data/, and writes the answer as `NUMBER at PLACE`.
#![tactic(auto)]

ghost use Rattle.std.specs.Prelude.{IfOk};
ghost use Rattle.input.specs.Counts.{IsPrefixLen};

use format::Answer;
use std::rt::Files;
use std::{fs, io};

// What is looked up: the package's name, the tag and the type.
const FOUND: [(&str, u32, u32); 51] = [
    // Sizes.
    ("right", 1000, 6),
    ("right", 1000, 8),
    ("right", 1106, 4),
    ("right", 1106, 3),
    ("document_002", 1000, 6),
    ("check02_limit", 1000, 6),
    ("check02_one_more", 1000, 6),
    ("check03_empty", 1000, 6),
    ("check03_95_bytes", 1000, 6),
    // Leads.
    ("check04_magic", 1000, 6),
    ("check04_major", 1000, 6),
    ("check04_minor", 1000, 6),
    ("check04_type", 1000, 6),
    ("check04_name", 1000, 6),
    ("check04_system", 1000, 6),
    ("check04_signature_type", 1000, 6),
    ("check04_two_fields", 1000, 6),
    // Structures and the gap.
    ("check05_signature", 1000, 6),
    ("check05_header", 1000, 6),
    ("check05_header_behind_end", 1000, 6),
    ("check28_gap_filled", 1000, 6),
    ("check28_last_byte", 1000, 6),
    ("check28_two_bytes", 1000, 6),
    ("check28_cut", 1000, 6),
    ("check28_before_magic", 1000, 6),
    ("check13_before_gap", 1000, 6),
    ("check06_magic", 1000, 6),
    ("check06_reserved", 1000, 6),
    ("check07_none", 1000, 6),
    ("check07_512", 2511, 7),
    ("check07_513", 2511, 7),
    ("check08_store_long", 1000, 6),
    ("check08_largest", 1000, 6),
    // Index records.
    ("check09_type_0", 1000, 6),
    ("check09_type_5", 1000, 6),
    ("check09_type_10", 1000, 6),
    ("check10_none", 1000, 6),
    ("check10_two_strings", 1000, 6),
    ("check11_int32_at_2", 1, 4),
    ("check12_int32_count_2", 1, 4),
    ("check12_product_wraps", 1, 4),
    ("check12_zero_missing", 1, 6),
    ("check12_bin_at_8", 1, 7),
    ("check13_tag_twice", 1000, 6),
    ("store8_int32_at_4", 1, 4),
    ("store8_string_at_7", 1, 6),
    // Translated strings.
    ("header_translated", 1016, 9),
    ("header_translated", 1016, 8),
    ("check10_translated_none", 1016, 9),
    ("check10_signature_translated", 1000, 6),
    ("locales_right", 1004, 9),
];

// What is read: the package's name, the first edition and the last.
const READ: [(&str, u32, u32); 59] = [
    // Books.
    ("book_example", 0, 4),
    ("book_no_doses", 2, 2),
    ("book_most_milligrams", 2, 2),
    ("book_two_kinds", 1, 2),
    ("book_limit", 2, 2),
    // Request 7: books with lots, and edition 3.
    ("book_lot", 1, 3),
    ("book_lot_0", 3, 3),
    ("book_lot_most", 3, 3),
    ("book_two_kinds", 3, 3),
    ("book_three_kinds", 1, 3),
    ("book_lot_behind_98", 1, 3),
    ("book_lots_limit", 3, 3),
    ("check14_20002", 3, 3),
    ("check15_20002_type", 3, 3),
    ("check20_kind_ba", 3, 3),
    ("check21_lot_cut", 3, 3),
    ("check22_lot_oxide", 3, 3),
    ("check22_lot_milligrams", 3, 3),
    ("check23_lot_sum", 3, 3),
    // The rules of 14 to 18.
    ("check14_signature_1000", 2, 2),
    ("check14_20001", 2, 2),
    ("check14_20002", 1, 2),
    ("check15_20002_type", 1, 2),
    ("check16_whole_length", 2, 2),
    ("check17_digest_alone", 2, 2),
    ("check17_leader_missing", 2, 2),
    ("check17_old_names", 2, 2),
    ("check18_system", 2, 2),
    ("check18_index", 2, 2),
    ("check18_directory", 2, 2),
    // Locales.
    ("locales_right", 1, 2),
    ("check17_locales", 1, 2),
    ("check17_locales_one_too_many", 2, 2),
    ("check17_locales_description", 2, 2),
    ("check17_locales_no_line", 2, 2),
    ("check17_locales_index_order", 2, 2),
    ("check17_digest_before_locales", 2, 2),
    ("check17_leader_before_locales", 2, 2),
    // Request 3: the digest from H on, with one bit turned in a dose, in the payload or in the digest.
    ("book_payload", 1, 2),
    ("check27_dose_bit", 1, 2),
    ("check27_payload_bit", 1, 2),
    ("check27_payload_first_bit", 2, 2),
    ("check27_digest_bit", 1, 2),
    ("check27_digest_first_bit", 2, 2),
    ("check27_from_the_lead", 2, 2),
    ("check27_without_payload", 2, 2),
    ("check27_after_system", 2, 2),
    ("check27_before_4097_bytes", 2, 2),
    // Request 5: a byte of the gap that isn't zero, before the rules and the digest.
    ("check28_book", 1, 2),
    ("check28_before_27", 1, 2),
    // Records of a book.
    ("check19_4097_bytes", 2, 2),
    ("check20_kind_96", 2, 2),
    ("check20_kind_80", 2, 2),
    ("check21_kind_7f", 2, 2),
    ("check21_date_cut", 1, 2),
    ("check22_oxide_0", 2, 2),
    ("check22_oxide_1000", 2, 2),
    ("check22_milligrams", 2, 2),
    ("check23_sum", 1, 2),
];

// Writes number and place of an answer, and ends the line.
fn show(rt: &impl Print, answer: Answer) -> io::Result<()> {
    match answer {
        Ok(place) => println!(rt; "0 at {place}"),
        Err(refusal) => println!(rt; "{refusal}"),
    }
}

// Reads a package of data/ to the front of `room`, and answers how many bytes.
fn load(rt: &impl Files, name: &str, room: &mut [u8]) -> io::Result<usize>
    ensures { IfOk result (λ n. IsPrefixLen n room.new) }
{
    let mut file = fs::open(rt, name)?;
    Ok(input::read(&mut file, room).unwrap_or_else(|failed| failed.count))
}

// Looks the tag and the type up in the header of a package, and writes the package's name and the answer.
fn find(rt: &(impl Files + Print + Eprint), name: &str, tag: u32, ty: u32) -> io::Result<()> {
    let mut pkg = [0u8; 65537];
    let n = match load(rt, name, &mut pkg) {
        Ok(n) => n,
        Err(e) => return eprintln!(rt; "{name}: {e}"),
    };
    let answer = lookups::find_answer(&pkg[..n], 1, tag, ty);
    print!(rt; "{name}: ")?;
    show(rt, answer)
}

// Reads a package at an edition, with room for any book's doses, and writes the package's name, the edition and the answer.
fn read(rt: &(impl Files + Print + Eprint), name: &str, edition: u32) -> io::Result<()> {
    let mut pkg = [0u8; 65537];
    let n = match load(rt, name, &mut pkg) {
        Ok(n) => n,
        Err(e) => return eprintln!(rt; "{name}: {e}"),
    };
    let mut doses = [0u32; 8192];
    let answer = reading::read(edition, &pkg[..n], &mut doses);
    print!(rt; "{name} at edition {edition}: ")?;
    show(rt, answer)
}

// Writes the smallest package into a buffer, compares it with the one of data/, and writes the answer.
fn write(rt: &(impl Files + Print + Eprint), name: &str) -> io::Result<()> {
    let mut pkg = [0u8; 65537];
    let n = match load(rt, name, &mut pkg) {
        Ok(n) => n,
        Err(e) => return eprintln!(rt; "{name}: {e}"),
    };
    let mut out = [0u8; 201];
    let header = b"\x00\x00\x00\x01\x00\x00\x00\x07\x00\x00\x00\x01\x00\x00\x00\x01";
    let answer = writer::write(b"a", b"", b"", header, b"\x07", &mut out);
    if out[..] == pkg[..n] {
        print!(rt; "{name}: the same bytes, ")?;
    } else {
        print!(rt; "{name}: other bytes, ")?;
    }
    show(rt, answer)
}

fn main(rt: HostRuntime) -> io::Result<()> {
    for (name, tag, ty) in FOUND {
        find(&rt, name, tag, ty)?;
    }
    for (name, first, last) in READ {
        for edition in first..=last {
            read(&rt, name, edition)?;
        }
    }
    write(&rt, "written_smallest")
}
