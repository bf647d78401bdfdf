// The calls for C.
// Number and place are in one number, number × 2^32 + place; how one text stands to another is 0, 1 or 2.
#![tactic(auto)]

ghost use Rattle.std.specs.Prelude.{◌≡◌};
ghost use Rattle.format.specs.Verdicts.{packed_of};
ghost use Rattle.elements.specs.Elements.{find_element_answer};
ghost use Rattle.lookups.specs.Lookup.{find_answer};
ghost use Rattle.version.specs.Version.{by_text};
ghost use Rattle.meets.specs.Meets.{meets_answer};
ghost use Rattle.station.specs.Station.{StationRead, StationWrite, StationDigest, order_number};

use format::packed;
use std::cmp::Ordering;

// A look-up: 0 and the data's file offset, or the first failing check of 2 to 13, 28 and 25.
#[unsafe(no_mangle)]
pub extern "C" fn station_find(pkg: &[u8], structure: u32, tag: u32, ty: u32) -> u64
    ensures { result ≡ packed_of (find_answer pkg.now structure tag ty) }
{
    packed(lookups::find_answer(pkg, structure, tag, ty))
}

// An element look-up: 0 and the element's file offset, or the first failing check of 2 to 13, 28, 25 and 26.
#[unsafe(no_mangle)]
pub extern "C" fn station_find_element(
    pkg: &[u8],
    structure: u32,
    tag: u32,
    ty: u32,
    element: u32,
) -> u64
    ensures { result ≡ packed_of (find_element_answer pkg.now structure tag ty element) }
{
    packed(elements::find_element_answer(pkg, structure, tag, ty, element))
}

// The reading at an edition: 0 and the dose count, with the doses at the front of the buffer, four bytes to a number,
// big-endian; or the first failing check of 1 to 13 with 28, 14 to 18, 27 and 19 to 24, and the buffer is as it was.
#[unsafe(no_mangle)]
pub extern "C" fn station_read(edition: u32, pkg: &[u8], doses: &mut [u8]) -> u64
    ensures { StationRead edition pkg.now doses.old result doses.new }
{
    packed(reading::read_bytes(edition, pkg, doses))
}

// A writing: 0 and the package's length, with the package at the front of the buffer; or the first of 32 to 34 that refuses
// it, and the buffer is as it was.
#[unsafe(no_mangle)]
pub extern "C" fn station_write(
    name: &[u8],
    signature: &[u8],
    signature_data: &[u8],
    header: &[u8],
    header_data: &[u8],
    out: &mut [u8],
) -> u64
    ensures { StationWrite name.now signature.now signature_data.now
        header.now header_data.now out.old result out.new }
{
    packed(writer::write(name, signature, signature_data, header, header_data, out))
}

// The digest of any bytes: 0 and 16, with the digest at the front of the buffer; or, where it has no room for 16 bytes, 34 at
// 16, and the buffer is as it was.
#[unsafe(no_mangle)]
pub extern "C" fn station_digest(bytes: &[u8], digest: &mut [u8]) -> u64
    ensures { StationDigest bytes.now digest.old result digest.new }
{
    packed(verify::put_digest(bytes, digest))
}

// How the left version text stands to the right one: 0 older, 1 the same, 2 newer.
#[unsafe(no_mangle)]
pub extern "C" fn station_compare(left: &[u8], right: &[u8]) -> u32
    ensures { result ≡ order_number (by_text left.now right.now) }
{
    match version::compare(left, right) {
        Ordering::Less => 0,
        Ordering::Equal => 1,
        Ordering::Greater => 2,
    }
}

// Whether a version text meets what is required for a name: 0 with place 1 for yes and 0 for no, or the first failing check of
// 2 to 13, 28 and 25.
#[unsafe(no_mangle)]
pub extern "C" fn station_meets(pkg: &[u8], name: &[u8], version: &[u8]) -> u64
    ensures { result ≡ packed_of (meets_answer pkg.now name.now version.now) }
{
    packed(meets::meets(pkg, name, version))
}
