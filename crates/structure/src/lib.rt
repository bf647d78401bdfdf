// One header structure: checks 5 to 8, and 5 to 13 in order.
#![tactic(auto, unfolding(format::specs::Verdicts::both, format::specs::Verdicts::check, crate::specs::Structure::header_check, crate::specs::Structure::structure_check))]

ghost use Rattle.std.specs.Prelude.{◌≡◌, ◌+◌, ◌<◌};
ghost use Rattle.format.specs.Places.{store_place};
ghost use Rattle.structure.specs.Structure.{header_check, records_check};
ghost use Rattle.structure.specs.Checked.{structure_checked};

use entries::entry_check;
use format::{HeaderRecord, Refusal, Section, Structure, Verdict};
use places::Start;

// Checks 5 to 8 for the header record at `start`, in a package of `len` bytes.
fn header_check(len: u32, start: Start, h: HeaderRecord) -> Verdict
    ensures { result ≡ header_check len start.0 h }
{
    let room = len as usize;
    let magic = start.get();
    let first = magic as usize + HeaderRecord::SIZE;
    if room < first {
        return Err(Refusal::new(5, magic));
    }
    let reserved = magic + HeaderRecord::RESERVED as u32;
    let nindex = magic + HeaderRecord::NINDEX as u32;
    let hsize = magic + HeaderRecord::HSIZE as u32;
    if h.magic != 0x8EAD_E801 {
        return Err(Refusal::new(6, magic));
    }
    if h.reserved != 0 {
        return Err(Refusal::new(6, reserved));
    }
    if h.nindex < 1 {
        return Err(Refusal::new(7, nindex));
    }
    if HeaderRecord::NINDEX_LIMIT < h.nindex {
        return Err(Refusal::new(7, nindex));
    }
    let section = Section {
        start: start,
        nindex: h.nindex,
        hsize: h.hsize,
    };
    let end = section.end();
    if room < end.get() {
        return Err(Refusal::new(8, hsize));
    }
    Ok(())
}

// Checks 9 to 13 for each index record in turn.
fn records_check(structure: Structure, s: &[u8], section: Section) -> Verdict
    requires { store_place section < 4294967296 }
    ensures { result ≡ records_check structure s.now section }
{
    let n = section.nindex;
    let repeat = repeats::first_in_index(s, section);
    for i in 0..n {
        let place = section.index_record(i);
        let e = section.record(s, n, i);
        entry_check(structure, s, section, place.get() as u32, e, i == repeat)?;
    }
    Ok(())
}

// Checks 5 to 13 for the structure at `start` in a package of `len` bytes.
pub fn check(structure: Structure, s: &[u8], len: u32, start: Start) -> Result<Section, Refusal>
    ensures { result ≡ structure_checked structure s.now len start.0 }
{
    let h = HeaderRecord::at(s, start.in_file());
    header_check(len, start, h)?;
    let section = Section {
        start: start,
        nindex: h.nindex,
        hsize: h.hsize,
    };
    records_check(structure, s, section)?;
    Ok(section)
}
