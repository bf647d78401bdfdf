// The version required for a package name.
#![tactic(auto, unfolding(package::specs::Package::opened, crate::specs::Version::requirement_for, crate::specs::Version::sought_version))]

ghost use Rattle.std.specs.Prelude.{◌≡◌, Some};
ghost use Rattle.format.specs.Verdicts.{pass};
ghost use Rattle.format.specs.Sizes.{package_limit};
ghost use Rattle.structure.specs.Sound.{SoundEntry};
ghost use Rattle.entries.specs.declared.types.ElementSize.TheVariants.{ToZero};
ghost use Rattle.entries.specs.Types.{element_size};
ghost use Rattle.package.specs.Package.{sound_check, header_at};
ghost use Rattle.required.specs.Version.{number_from, requirement_in, requirement_for, sought_version, required_version};

use elements::element;
use format::{Refusal, Section};
use index::Entry;
use lookups::shown;

// The tags of required names and versions, and the type of a string array.
#[derive(Drop)]
pub struct Require {}

impl Require {
    pub const NAME: u32 = 1049;

    pub const VERSION: u32 = 1050;

    pub const STRING_ARRAY: u32 = 8;
}

// What is required for a name: the header and the entry of the versions, with the name's number, which its version has too.
#[derive(Clone, Copy)]
pub struct Requirement {
    pub header: Section,
    pub versions: Entry,
    pub number: u32,
}

// Nothing is required for a name.
const NOT_REQUIRED: Refusal = Refusal {
    number: 25,
    place: 0,
};

// The number of the first of the names that is the lent one.
fn number_of(pkg: &[u8], name: &[u8], names: Entry) -> Option<u32>
    requires { (SoundEntry pkg.now package_limit names) × (element_size names.ty ≡ Some ToZero) }
    ensures { result ≡ number_from pkg.now name.now names names.count 0 }
{
    let end = names.at.behind(names.extent);
    let mut at = names.at;
    for k in 0..names.count {
        let run = at.strings_end(pkg, end, 1);
        let extent = index::extent_to(at, run);
        if be::same(at.part(pkg, extent - 1), name) {
            return Some(k);
        }
        at = at.behind(extent);
    }
    None
}

// The name among a header's entries, where names and versions are string arrays of one count.
fn among(pkg: &[u8], name: &[u8], header: Section) -> Result<Requirement, Refusal>
    requires { (sound_check pkg.now ≡ pass) × (header ≡ header_at pkg.now) }
    ensures { result ≡ requirement_in pkg.now name.now header }
{
    let Some(names) = index::find(pkg, header, Require::NAME, Require::STRING_ARRAY) else {
        return Err(NOT_REQUIRED);
    };
    let Some(versions) = index::find(pkg, header, Require::VERSION, Require::STRING_ARRAY) else {
        return Err(NOT_REQUIRED);
    };
    if names.count != versions.count {
        return Err(NOT_REQUIRED);
    }
    let Some(number) = number_of(pkg, name, names) else {
        return Err(NOT_REQUIRED);
    };
    Ok(Requirement {
        header,
        versions,
        number,
    })
}

// What is required for a name: the first string of tag 1049 that is the name gives the number of its version in tag 1050.
pub fn seek(pkg: &[u8], name: &[u8]) -> Result<Requirement, Refusal>
    ensures { result ≡ requirement_for pkg.now name.now }
{
    let opened = package::open(pkg)?;
    among(pkg, name, opened.header)
}

// Where the version required for a name stands.
fn seek_version(pkg: &[u8], name: &[u8]) -> Result<Entry, Refusal>
    ensures { result ≡ sought_version pkg.now name.now }
{
    let wanted = seek(pkg, name)?;
    Ok(element(pkg, wanted.versions, wanted.number))
}

// The version required for a name, with its zero byte; an empty part where a check of 2 to 13 or 28 fails, nothing matches, or
// names and versions are not string arrays of one count.
pub fn required_version<'p, 'n>(pkg: &'p [u8], name: &'n [u8]) -> &'p [u8]
    ensures { result.now ≡ required_version pkg.now name.now }
{
    shown(pkg, seek_version(pkg, name))
}
