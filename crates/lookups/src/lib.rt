// Look-ups of entries: check 25.
#![tactic(auto, unfolding(package::specs::Package::opened, crate::specs::Lookup::sought))]

ghost use Rattle.std.specs.Prelude.{◌≡◌};
ghost use Rattle.index.specs.Lookup.{find_in, found_bytes};
ghost use Rattle.lookups.specs.Lookup.{sought, sought_bytes, find_bytes, find_answer};

use format::{Answer, Refusal, Section};
use index::Entry;

// Checks 2 to 13, 28 and 25: the entry of a structure with the tag and the type.
pub fn seek(pkg: &[u8], which: u32, tag: u32, ty: u32) -> Result<Entry, Refusal>
    ensures { result ≡ sought pkg.now which tag ty }
{
    let opened = package::open(pkg)?;
    let found = index::find(pkg, opened.section(which), tag, ty);
    found.ok_or(Refusal::new(25, 0))
}

// The bytes of what was sought: the part of the package that is the data, or an empty part.
pub fn shown(pkg: &[u8], found: Result<Entry, Refusal>) -> &[u8]
    ensures { result.now ≡ sought_bytes pkg.now found }
{
    match found {
        Ok(entry) => entry.at.part(pkg, entry.extent),
        Err(_) => &pkg[..0],
    }
}

// The data of the first entry of an opened structure with the tag and the type; an empty part where there is none.
pub fn find_in(pkg: &[u8], section: Section, tag: u32, ty: u32) -> &[u8]
    ensures { result.now ≡ found_bytes pkg.now (find_in pkg.now section tag ty) }
{
    match index::find(pkg, section, tag, ty) {
        Some(entry) => entry.at.part(pkg, entry.extent),
        None => &pkg[..0],
    }
}

// The data of the entry of a structure with the tag and the type; an empty part where a check of 2 to 13, 28 or 25 fails.
pub fn find(pkg: &[u8], which: u32, tag: u32, ty: u32) -> &[u8]
    ensures { result.now ≡ find_bytes pkg.now which tag ty }
{
    shown(pkg, seek(pkg, which, tag, ty))
}

// Number and place of a look-up: 0 and the data's file offset, or the first failing check of 2 to 13, 28 and 25.
pub fn find_answer(pkg: &[u8], which: u32, tag: u32, ty: u32) -> Answer
    ensures { result ≡ find_answer pkg.now which tag ty }
{
    let entry = seek(pkg, which, tag, ty)?;
    Ok(entry.at.get() as u32)
}
