// Texts: check 18.
// It asks the records that were gathered.
#![tactic(auto, unfolding(format::specs::Verdicts::check))]

ghost use Rattle.std.specs.Prelude.{◌≡◌, ℕ, ◌+◌, ◌*◌, ◌<◌};
ghost use Rattle.tags.specs.Tables.{shown_by};
ghost use Rattle.texts.specs.Texts.{entry_in, text_is, programs_check, all_below, indexes_below};
ghost use Rattle.texts.specs.Texts.{slashes_end, directories_end, texts_check};

use entries::data_end;
use format::{Refusal, Section, Verdict};
use index::{Entry, entry_of};
use places::FileOffset;
use tags::Table;

// The tags of the scripts' programs.
const PROGRAMS: [u32; 4] = [1085, 1086, 1087, 1088];

// The entry that a structure shows for a tag.
fn entry_for(pkg: &[u8], section: Section, tags: &Table, tag: u32) -> Option<Entry>
    ensures { result ≡ entry_in pkg.now section (shown_by tags.now) tag }
{
    tags.look(tag)
        .map(|e| entry_of(section, e, data_end(pkg, section, e)))
}

// Whether a tag's data is a text, where the tag is present.
fn text_is(pkg: &[u8], section: Section, tags: &Table, text: &[u8], tag: u32) -> bool
    ensures { result ≡ text_is pkg.now section (shown_by tags.now) text.now tag }
{
    entry_for(pkg, section, tags, tag).is_none_or(|entry| be::same(
        entry.at.part(pkg, entry.extent),
        text,
    ))
}

// The scripts' programs, where present, are "/bin/sh".
fn programs(pkg: &[u8], header: Section, tags: &Table) -> Verdict
    ensures { result ≡ programs_check pkg.now header (shown_by tags.now) }
{
    for tag in PROGRAMS {
        if !text_is(pkg, header, tags, b"/bin/sh\0", tag) {
            return Err(Refusal {
                number: 18,
                place: tag,
            });
        }
    }
    Ok(())
}

// Whether each of `n` 32-bit numbers from a place on is below a limit.
fn all_below(pkg: &[u8], limit: u32, n: u32, place: FileOffset) -> bool
    requires { place.0 < 1099511627776 }
    ensures { result ≡ all_below pkg.now limit n place.0 }
{
    for i in 0..n {
        if limit <= place.behind(4 * i as usize).number(pkg) {
            return false;
        }
    }
    true
}

// Whether each value of 1116 is below the count of 1118.
fn indexes_below(pkg: &[u8], header: Section, tags: &Table) -> bool
    ensures { result ≡ indexes_below pkg.now header (shown_by tags.now) }
{
    match tags.look(1116) {
        Some(e) => all_below(pkg, tags.count(1118), e.count, header.in_file(e.offset)),
        None => true,
    }
}

// Whether, in `extent` bytes from a place on, the byte before each zero byte is "/".
fn slashes_end(pkg: &[u8], extent: usize, place: FileOffset) -> bool
    requires { place.0 + extent < 18446744073709551616 }
    ensures { result ≡ slashes_end pkg.now 0 extent place.0 }
{
    let mut last = 0;
    for i in 0..extent {
        let b = place.behind(i).byte(pkg);
        if b == 0 && last != b'/' {
            return false;
        }
        last = b;
    }
    true
}

// Whether each string of 1118 ends with "/".
fn directories_end(pkg: &[u8], header: Section, tags: &Table) -> bool
    ensures { result ≡ directories_end pkg.now header (shown_by tags.now) }
{
    match entry_for(pkg, header, tags, 1118) {
        Some(entry) => slashes_end(pkg, entry.extent, entry.at),
        None => true,
    }
}

// Check 18.
pub fn check(pkg: &[u8], header: Section, tags: &Table) -> Verdict
    ensures { result ≡ texts_check pkg.now header (shown_by tags.now) }
{
    if !text_is(pkg, header, tags, b"linux\0", 1021) {
        return Err(Refusal {
            number: 18,
            place: 1021,
        });
    }
    programs(pkg, header, tags)?;
    if !indexes_below(pkg, header, tags) {
        return Err(Refusal {
            number: 18,
            place: 1116,
        });
    }
    if !directories_end(pkg, header, tags) {
        return Err(Refusal {
            number: 18,
            place: 1118,
        });
    }
    Ok(())
}
