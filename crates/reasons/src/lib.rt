// Whether a name and two lists of entries may be written: refusal 32.
#![tactic(auto, unfolding(format::specs::Verdicts::both, format::specs::Verdicts::check, entries::specs::Entries::count_right, crate::specs::Reasons::data_exact, crate::specs::Reasons::tag_in, crate::specs::Reasons::known_reasons, crate::specs::Reasons::list_reasons, crate::specs::Reasons::name_reasons, crate::specs::Reasons::form_reasons, crate::specs::Reasons::reasons))]

ghost use Rattle.std.specs.Prelude.{◌≡◌, ◌/◌, ◌≤◌, length, Some};
ghost use Rattle.format.specs.Verdicts.{check, pass};
ghost use Rattle.format.specs.declared.section.Structure.TheVariants.{Signature, Header};
ghost use Rattle.lists.specs.Lists.{entry_of, entries_of};
ghost use Rattle.entries.specs.Types.{element_size};
ghost use Rattle.put.specs.Puts.{zeros};
ghost use Rattle.reasons.specs.Reasons.{data_exact, tag_in, own_tags, with_own, known_reasons};
ghost use Rattle.reasons.specs.Reasons.{entries_reasons, list_reasons, name_reasons, form_reasons, reasons};

use entries::ElementSize;
use entries::types::element_size;
use format::{HeaderRecord, IndexRecord, Refusal, Structure, Verdict};
use lists::{Lent, ListRecord};
use places::StoreOffset;

// The entries that the writer puts first in the signature: 1000, the size, and 1004, the digest.
#[derive(Drop)]
pub struct Own {}

impl Own {
    pub const SIZE_TAG: u32 = 1000;

    pub const DIGEST_TAG: u32 = 1004;

    // How many entries they are, and how many bytes of the store their data takes.
    pub const ENTRIES: usize = 2;

    pub const STORE: usize = 20;
}

// The longest name.
pub const NAME_LIMIT: usize = 65;

const REFUSED: Refusal = Refusal {
    number: 32,
    place: 0,
};

// Refuses unless a test holds.
fn demand(holds: bool) -> Verdict
    ensures { result ≡ check holds 32 0 pass }
{
    if holds { Ok(()) } else { Err(REFUSED) }
}

// Whether an entry's data is exactly what its type, of an element size, and its count say.
fn data_exact(e: ListRecord, size: ElementSize, bytes: &[u8]) -> bool
    requires { Some size ≡ element_size e.ty }
    ensures { result ≡ data_exact e.ty e.count bytes.now }
{
    match size {
        ElementSize::Bytes(n) => n * e.count as usize == bytes.len(),
        ElementSize::ToZero => {
            let end = strings::strings_end(bytes, 0, bytes.len(), e.count);
            end == Some(bytes.len())
        }
    }
}

// Whether one of the writer's own entries, in the signature, has the tag.
fn is_own(structure: Structure, tag: u32) -> bool
    ensures { result ≡ tag_in tag (own_tags structure) }
{
    match structure {
        Structure::Signature => tag == Own::DIGEST_TAG || tag == Own::SIZE_TAG,
        Structure::Header => false,
    }
}

// The reasons of an entry of a structure's list, of its 16 bytes and its data; `repeated` says whether an earlier entry of the
// list has its tag.
fn entry_check(structure: Structure, e: ListRecord, bytes: &[u8], repeated: bool) -> Verdict
    ensures { result ≡ known_reasons structure repeated (entry_of e bytes.now) }
{
    let record = IndexRecord {
        tag: e.tag,
        ty: e.ty,
        offset: StoreOffset::of(0),
        count: e.count,
    };
    let size = element_size(e.ty).ok_or(REFUSED)?;
    demand(
        entries::count_right(structure, record)
            && data_exact(e, size, bytes)
            && !is_own(structure, e.tag)
            && !repeated,
    )
}

// The reasons of each entry of a structure's list in turn.
fn entries_check(structure: Structure, lent: &Lent) -> Verdict
    requires { length lent.now.list.now / 16 ≤ 512 }
    ensures { result ≡ entries_reasons structure (own_tags structure) (entries_of lent.now.list.now lent.now.row.now) }
{
    let n = lent.count() as u32;
    let repeat = repeats::first(lent.list, n);
    let mut at = 0;
    for i in 0..n {
        let e = lent.entry(i);
        let size = e.size as usize;
        let bytes = be::part(lent.row, at, size);
        entry_check(structure, e, bytes, i == repeat)?;
        at += size;
    }
    Ok(())
}

// The reasons of the signature's list, with the writer's own entries first, whatever their data.
#[tactic(auto, using(lists::proofs::ListLaws::entries_total, crate::proofs::ReasonLaws::own_passes), unfolding(format::specs::Verdicts::check, crate::specs::Reasons::list_reasons))]
fn signature_check(lent: &Lent) -> Verdict
    ensures { result ≡ list_reasons Signature (with_own 0 (zeros 16) (entries_of lent.now.list.now lent.now.row.now)) }
{
    let all = lent.count() + Own::ENTRIES;
    demand(all <= HeaderRecord::NINDEX_LIMIT as usize)?;
    entries_check(Structure::Signature, lent)
}

// The reasons of the header's list.
#[tactic(auto, using(lists::proofs::ListLaws::entries_total), unfolding(format::specs::Verdicts::check, crate::specs::Reasons::list_reasons))]
fn header_check(lent: &Lent) -> Verdict
    ensures { result ≡ list_reasons Header (entries_of lent.now.list.now lent.now.row.now) }
{
    let n = lent.count();
    demand(1 <= n && n <= HeaderRecord::NINDEX_LIMIT as usize)?;
    entries_check(Structure::Header, lent)
}

// The reasons of a name.
fn name_check(name: &[u8]) -> Verdict
    ensures { result ≡ name_reasons name.now }
{
    let len = name.len();
    demand(1 <= len && len <= NAME_LIMIT)?;
    demand(strings::strings_end(name, 0, len, 1).is_none())
}

// The reasons of a list as it is lent.
fn form_check(lent: &Lent) -> Verdict
    ensures { result ≡ form_reasons lent.now.list.now lent.now.row.now }
{
    demand(lent.is_whole())?;
    demand(lent.sizes_meet())
}

// Refusal 32.
pub fn check(name: &[u8], signature: &Lent, header: &Lent) -> Verdict
    ensures { result ≡ reasons name.now signature.now.list.now signature.now.row.now
        header.now.list.now header.now.row.now }
{
    form_check(signature)?;
    form_check(header)?;
    name_check(name)?;
    signature_check(signature)?;
    header_check(header)
}
