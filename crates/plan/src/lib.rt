// Decides a writing: refusals 32 to 34, and the sizes of the package.
#![tactic(auto)]

ghost use Rattle.std.specs.Prelude.{◌≡◌, ◌+◌, ◌*◌, ◌/◌, ◌≤◌, length};
ghost use Rattle.format.specs.Sizes.{package_limit};
ghost use Rattle.lists.specs.Lists.{entries_of, sizes_from};
ghost use Rattle.layout.specs.Layout.{store_from};
ghost use Rattle.plan.specs.Sizes.{Listed, sizes_with, planned, decided};

use format::{HeaderRecord, IndexRecord, Lead, Refusal};
use lists::Lent;
use places::FileOffset;
use reasons::Own;

// The sizes of a package: the signature's store, where the header starts, the header's store, the whole length.
#[derive(Clone, Copy)]
pub struct Sizes {
    pub signature: u32,
    pub start: u32,
    pub header: u32,
    pub length: u32,
}

const TOO_LONG: Refusal = Refusal {
    number: 33,
    place: 0,
};

// Up to where the store of a list is filled, from a place on.
fn store_end(lent: &Lent, start: usize) -> usize
    requires { Listed lent.now.list.now lent.now.row.now × (start ≤ 20) }
    ensures { (result ≡ start + length (store_from start (entries_of lent.now.list.now lent.now.row.now)))
        × (result ≤ 2 * package_limit) }
{
    let n = lent.count() as u32;
    let mut filled = start;
    for i in 0..n {
        let e = lent.entry(i);
        let offset = layout::offset_for(e.ty, filled as u32);
        filled = offset + e.size as usize;
    }
    filled
}

// The sizes of a package with stores of the given sizes.
fn sizes_with(signature: &Lent, header: &Lent, first: usize, second: usize) -> Sizes
    requires { (length signature.now.list.now / 16 ≤ 512) × (length header.now.list.now / 16 ≤ 512)
        × (first ≤ 2 * package_limit) × (second ≤ 2 * package_limit) }
    ensures { result ≡ sizes_with signature.now.list.now header.now.list.now first second }
{
    let n = signature.count() + Own::ENTRIES;
    let end = Lead::SIZE + (HeaderRecord::SIZE + IndexRecord::SIZE * n + first);
    let start = end.next_multiple_of(8);
    let m = header.count();
    let length = start + (HeaderRecord::SIZE + IndexRecord::SIZE * m + second);
    Sizes {
        signature: first as u32,
        start: start as u32,
        header: second as u32,
        length: length as u32,
    }
}

// Refusals 33 and 34, for lists that passed 32. Data longer than a package is over the limit at once.
#[tactic(auto, using(crate::proofs::SizeLaws::over_first, crate::proofs::SizeLaws::over_second, crate::proofs::SizeLaws::over_whole, crate::proofs::SizeLaws::short, crate::proofs::SizeLaws::fits))]
fn room_check(signature: &Lent, header: &Lent, room: usize) -> Result<Sizes, Refusal>
    requires { (length signature.now.list.now / 16 ≤ 512) × (length header.now.list.now / 16 ≤ 512)
        × (sizes_from signature.now.list.now (length signature.now.list.now / 16) 0 ≡ length signature.now.row.now)
        × (sizes_from header.now.list.now (length header.now.list.now / 16) 0 ≡ length header.now.row.now) }
    ensures { result ≡ planned signature.now.list.now signature.now.row.now
        header.now.list.now header.now.row.now room }
{
    if FileOffset::LIMIT < signature.row.len() {
        return Err(TOO_LONG);
    }
    if FileOffset::LIMIT < header.row.len() {
        return Err(TOO_LONG);
    }
    let first = store_end(signature, Own::STORE);
    let second = store_end(header, 0);
    let sizes = sizes_with(signature, header, first, second);
    if FileOffset::LIMIT < sizes.length as usize {
        return Err(TOO_LONG);
    }
    if room < sizes.length as usize {
        return Err(Refusal {
            number: 34,
            place: sizes.length,
        });
    }
    Ok(sizes)
}

// Refusals 32 to 34: everything is decided here, and nothing is written.
#[tactic(auto, using(crate::proofs::PlanLaws::room_ready, crate::proofs::PlanLaws::room_decides), unfolding(format::specs::Verdicts::both, crate::specs::Sizes::decided, crate::specs::Refusals::write_check))]
pub fn decide(name: &[u8], signature: &Lent, header: &Lent, room: usize) -> Result<Sizes, Refusal>
    ensures { result ≡ decided name.now signature.now.list.now signature.now.row.now
        header.now.list.now header.now.row.now room }
{
    reasons::check(name, signature, header)?;
    room_check(signature, header, room)
}
