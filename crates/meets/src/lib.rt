// Whether a version text meets what is required for a package name.
#![tactic(auto, unfolding(crate::specs::Meets::is_set, crate::specs::Meets::meets_by, crate::specs::Meets::decided, crate::specs::Meets::meets_answer))]

ghost use Rattle.std.specs.Prelude.{◌≡◌, ◌<◌};
ghost use Rattle.format.specs.Verdicts.{pass};
ghost use Rattle.format.specs.Sizes.{package_limit};
ghost use Rattle.structure.specs.Sound.{SoundEntry};
ghost use Rattle.package.specs.Package.{sound_check, header_at};
ghost use Rattle.required.specs.Version.{text_of};
ghost use Rattle.meets.specs.Meets.{is_set, is_flagged, meets_by, decided_by, decided, meets_answer};

use elements::element;
use format::{Answer, Refusal, Section};
use index::Entry;
use std::cmp::Ordering;

// The tag of the required names' flags and its type, and the flags of a relation.
#[derive(Drop)]
pub struct Sense {}

impl Sense {
    pub const TAG: u32 = 1048;

    pub const INT32: u32 = 4;

    pub const LESS: u32 = 0x02;

    pub const GREATER: u32 = 0x04;

    pub const EQUAL: u32 = 0x08;
}

// Whether one of the flags is set.
fn is_set(flags: u32, flag: u32) -> bool
    requires { 0 < flag }
    ensures { result ≡ is_set flags flag }
{
    flags / flag % 2 == 1
}

// Whether the relation that a given text has to the required one is flagged.
fn is_flagged(flags: u32, order: Ordering) -> bool
    ensures { result ≡ is_flagged flags order }
{
    match order {
        Ordering::Less => is_set(flags, Sense::LESS),
        Ordering::Equal => is_set(flags, Sense::EQUAL),
        Ordering::Greater => is_set(flags, Sense::GREATER),
    }
}

// Whether a text meets a requirement: its relation is flagged, or no relation is.
pub fn meets_by(flags: u32, order: Ordering) -> bool
    ensures { result ≡ meets_by flags order }
{
    if is_set(flags, Sense::LESS) || is_set(flags, Sense::GREATER) || is_set(flags, Sense::EQUAL) {
        is_flagged(flags, order)
    } else {
        true
    }
}

// A single string without its zero byte.
fn text(pkg: &[u8], string: Entry) -> &[u8]
    ensures { result.now ≡ text_of pkg.now string }
{
    string.at.part(pkg, string.extent.saturating_sub(1))
}

// Whether a text meets the requirement of a number: its flags, and its version.
fn by_number(pkg: &[u8], version: &[u8], flags: Entry, versions: Entry, k: u32) -> Answer
    requires { (SoundEntry pkg.now package_limit flags) × (SoundEntry pkg.now package_limit versions) }
    ensures { result ≡ decided_by pkg.now version.now flags versions k }
{
    let flag = element(pkg, flags, k);
    let bits = flag.at.number(pkg);
    let beside = element(pkg, versions, k);
    let order = version::compare(version, text(pkg, beside));
    if meets_by(bits, order) { Ok(1) } else { Ok(0) }
}

// No version is required for a name, or its flags are not as they should be.
const NOT_REQUIRED: Refusal = Refusal {
    number: 25,
    place: 0,
};

// The same among a header's entries, where the flags are int32 of the versions' count.
fn decide(pkg: &[u8], version: &[u8], header: Section, versions: Entry, k: u32) -> Answer
    requires { (sound_check pkg.now ≡ pass) × (header ≡ header_at pkg.now) × (SoundEntry pkg.now package_limit versions) }
    ensures { result ≡ decided pkg.now version.now header versions k }
{
    let Some(flags) = index::find(pkg, header, Sense::TAG, Sense::INT32) else {
        return Err(NOT_REQUIRED);
    };
    if flags.count != versions.count {
        return Err(NOT_REQUIRED);
    }
    by_number(pkg, version, flags, versions, k)
}

// Whether a version text meets what is required for a name: 0 with place 1 for yes and 0 for no; or the first failing check of 2
// to 13 and 28; or 25 at 0 where no version is required for the name, or its flags aren't int32 of the names' count.
pub fn meets(pkg: &[u8], name: &[u8], version: &[u8]) -> Answer
    ensures { result ≡ meets_answer pkg.now name.now version.now }
{
    let wanted = required::seek(pkg, name)?;
    decide(pkg, version, wanted.header, wanted.versions, wanted.number)
}
