// Puts a structure into a buffer: its header record, its index and its store.
ghost use Rattle.std.specs.Prelude.{◌≡◌, ◌++◌, ◌+◌, ◌*◌, ◌/◌, ◌≤◌, ◌<◌, length};
ghost use Rattle.std.proofs.lemmas.List.Edits.{sets};
ghost use Rattle.format.specs.Sizes.{package_limit};
ghost use Rattle.put.specs.Puts.{bytes_of};
ghost use Rattle.lists.specs.Lists.{entries_of};
ghost use Rattle.reasons.specs.Reasons.{with_own};
ghost use Rattle.layout.specs.Layout.{header_bytes, own_records, index_from, store_from, structure_bytes};
ghost use Rattle.plan.specs.Sizes.{Listed, structure_size, signature_store, header_store};

use format::{HeaderRecord, IndexRecord};
use lists::Lent;
use reasons::Own;

// Puts a header record at a place.
fn put_header(out: &mut [u8], place: usize, nindex: u32, hsize: u32)
    ensures { out.new ≡ sets out.old place (header_bytes nindex hsize) }
{
    put::numbers(out, place, 0x8EAD_E801, 0, nindex, hsize);
}

// Puts a list's index records at a place, the store being filled up to `start`.
fn put_index(out: &mut [u8], place: usize, start: usize, lent: &Lent)
    requires { Listed lent.now.list.now lent.now.row.now × (start ≤ 20)
        × (place + 16 * (length lent.now.list.now / 16) ≤ length out.old) }
    ensures { out.new ≡ sets out.old place
        (index_from start (entries_of lent.now.list.now lent.now.row.now)) }
{
    let n = lent.count() as u32;
    let mut filled = start;
    for i in 0..n {
        let e = lent.entry(i);
        let offset = layout::offset_for(e.ty, filled as u32);
        let to = place + IndexRecord::SIZE * i as usize;
        put::numbers(out, to, e.tag, e.ty, offset as u32, e.count);
        filled = offset + e.size as usize;
    }
}

// Puts a list's data at a place, with zero bytes for alignment, the store being filled up to `start`. Data with no zero bytes
// between is put in one run, from `from` of the row on.
fn put_store(out: &mut [u8], place: usize, start: usize, lent: &Lent)
    requires { Listed lent.now.list.now lent.now.row.now × (start ≤ 20)
        × (place + length (store_from start (entries_of lent.now.list.now lent.now.row.now)) ≤ length out.old) }
    ensures { out.new ≡ sets out.old place
        (store_from start (entries_of lent.now.list.now lent.now.row.now)) }
{
    let n = lent.count() as u32;
    let mut to = place;
    let mut from = 0;
    let mut at = 0;
    let mut filled = start;
    for i in 0..n {
        let e = lent.entry(i);
        let offset = layout::offset_for(e.ty, filled as u32);
        let gap = offset - filled;
        if gap != 0 {
            put::run(out, to, be::part(lent.row, from, at - from), gap);
            to += at - from + gap;
            from = at;
        }
        at += e.size as usize;
        filled = offset + e.size as usize;
    }
    put::bytes(out, to, be::part(lent.row, from, at - from));
}

// Puts a structure at a place, its store being of the given size.
pub(crate) fn put_structure(out: &mut [u8], place: usize, lent: &Lent, size: usize)
    requires { Listed lent.now.list.now lent.now.row.now × (size ≡ header_store lent.now.list.now lent.now.row.now)
        × (place + structure_size (length lent.now.list.now / 16) size ≤ length out.old) × (size ≤ package_limit) }
    ensures { out.new ≡ sets out.old place
        (structure_bytes (entries_of lent.now.list.now lent.now.row.now)) }
{
    let n = lent.count();
    put_header(out, place, n as u32, size as u32);
    let index = place + HeaderRecord::SIZE;
    put_index(out, index, 0, lent);
    put_store(out, index + IndexRecord::SIZE * n, 0, lent);
}

// Puts the index records of the writer's own entries at a place.
#[tactic(auto, using(crate::proofs::StructureLaws::own_index_put))]
fn put_own_index(out: &mut [u8], place: usize)
    requires { place + 32 ≤ length out.old }
    ensures { out.new ≡ sets out.old place own_records }
{
    put::numbers(out, place, Own::SIZE_TAG, 4, 0, 1);
    put::numbers(out, place + IndexRecord::SIZE, Own::DIGEST_TAG, 7, 4, 16);
}

// Puts their data at a place: the number and the digest.
#[tactic(auto, using(crate::proofs::StructureLaws::own_store_put))]
fn put_own_store(out: &mut [u8], place: usize, number: u32, digest: &[u8; 16])
    requires { place + 20 ≤ length out.old }
    ensures { out.new ≡ sets out.old place (bytes_of number ++ digest.now) }
{
    put::number(out, place, number);
    put::bytes(out, place + 4, digest);
}

// Puts the signature at a place, with 1000 and 1004 first in its index and in its store, which is of the given size.
pub(crate) fn put_signature(
    out: &mut [u8],
    place: usize,
    lent: &Lent,
    size: usize,
    number: u32,
    digest: &[u8; 16],
)
    requires { Listed lent.now.list.now lent.now.row.now × (size ≡ signature_store lent.now.list.now lent.now.row.now)
        × (place + structure_size (length lent.now.list.now / 16 + 2) size ≤ length out.old) × (size ≤ package_limit) }
    ensures { out.new ≡ sets out.old place
        (structure_bytes (with_own number digest.now (entries_of lent.now.list.now lent.now.row.now))) }
{
    let n = lent.count();
    put_header(out, place, (n + Own::ENTRIES) as u32, size as u32);
    let own = place + HeaderRecord::SIZE;
    put_own_index(out, own);
    let index = own + IndexRecord::SIZE * Own::ENTRIES;
    put_index(out, index, Own::STORE, lent);
    let store = index + IndexRecord::SIZE * n;
    put_own_store(out, store, number, digest);
    put_store(out, store + Own::STORE, Own::STORE, lent);
}
