// File lists and file names: check 17.
// It asks the records that were gathered.
#![tactic(auto, unfolding(format::specs::Verdicts::both, format::specs::Verdicts::check, crate::specs::Files::count_check, crate::specs::Files::old_names_right, crate::specs::Files::names_check))]

ghost use Rattle.std.specs.Prelude.{◌≡◌, ℕ};
ghost use Rattle.tags.specs.Tables.{shown_by};
ghost use Rattle.files.specs.Files.{count_check, counts_check, file_tags, old_names_right, present_check, new_names_check, names_check, counted_check};
ghost use Rattle.files.specs.Files.{file_groups};

use format::{Refusal, Verdict};
use tags::Table;

// The tags that have one value for each file.
const FILE_TAGS: [u32; 12] = [
    1030, 1033, 1034, 1035, 1036, 1037, 1039, 1040, 1045, 1095, 1096, 1097,
];

// A tag that is present has a count.
fn counts(header: &Table, n: u32, tag: u32) -> Verdict
    ensures { result ≡ count_check (shown_by header.now) n tag }
{
    if header.has(tag) && header.count(tag) != n {
        return Err(Refusal {
            number: 17,
            place: tag,
        });
    }
    Ok(())
}

// Each tag of the files has the count of 1028.
fn lists(header: &Table, n: u32) -> Verdict
    ensures { result ≡ counts_check (shown_by header.now) n file_tags }
{
    for tag in FILE_TAGS {
        counts(header, n, tag)?;
    }
    Ok(())
}

// The old form of the file names stands alone, with the count of 1028.
fn old_names_right(header: &Table, n: u32) -> bool
    ensures { result ≡ old_names_right (shown_by header.now) n }
{
    header.count(1027) == n && !header.has(1116) && !header.has(1117) && !header.has(1118)
}

// All of some tags are present.
pub fn present(tags: &Table, group: &[u32]) -> Verdict
    ensures { result ≡ present_check (shown_by tags.now) group.now }
{
    for tag in group {
        if !tags.has(*tag) {
            return Err(Refusal {
                number: 17,
                place: *tag,
            });
        }
    }
    Ok(())
}

// All of some tags have a count.
pub fn counted(tags: &Table, n: u32, group: &[u32]) -> Verdict
    ensures { result ≡ counted_check (shown_by tags.now) n group.now }
{
    for tag in group {
        if tags.count(*tag) != n {
            return Err(Refusal {
                number: 17,
                place: *tag,
            });
        }
    }
    Ok(())
}

// The new form of the file names is whole.
fn new_names(header: &Table, n: u32) -> Verdict
    ensures { result ≡ new_names_check (shown_by header.now) n }
{
    present(header, &[1116, 1117, 1118])?;
    counted(header, n, &[1116, 1117])
}

// The file names, in the old form or in the new.
fn names(header: &Table, n: u32) -> Verdict
    ensures { result ≡ names_check (shown_by header.now) n }
{
    if !header.has(1027) {
        return new_names(header, n);
    }
    if !old_names_right(header, n) {
        return Err(Refusal {
            number: 17,
            place: 1027,
        });
    }
    Ok(())
}

// The file lists, then the file names.
pub fn check(header: &Table) -> Verdict
    ensures { result ≡ file_groups (shown_by header.now) }
{
    let n = header.count(1028);
    lists(header, n)?;
    names(header, n)
}
