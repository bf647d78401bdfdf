// The writer: puts the package of a name and two lists of entries into a lent buffer.
#![tactic(auto)]

ghost use Rattle.std.specs.Prelude.{◌≡◌, ◌≤◌, length};
ghost use Rattle.std.proofs.lemmas.List.Edits.{sets};
ghost use Rattle.format.specs.Sizes.{package_limit};
ghost use Rattle.plan.specs.Refusals.{written_of};
ghost use Rattle.plan.specs.Sizes.{Listed, sizes_of};
ghost use Rattle.writer.specs.Writing.{Wrote};

pub mod structures;

use format::{Answer, HeaderRecord, IndexRecord, Lead};
use lists::Lent;
use plan::Sizes;
use reasons::Own;

// Puts a package of the given sizes at the front: the header first, since the signature holds its digest.
fn put_package(out: &mut [u8], name: &[u8], signature: &Lent, header: &Lent, sizes: Sizes)
    requires { Listed signature.now.list.now signature.now.row.now × Listed header.now.list.now header.now.row.now
        × (sizes ≡ sizes_of signature.now.list.now signature.now.row.now header.now.list.now header.now.row.now)
        × (sizes.length ≤ length out.old) × (sizes.length ≤ package_limit) }
    ensures { out.new ≡ sets out.old 0
        (written_of name.now signature.now.list.now signature.now.row.now
        header.now.list.now header.now.row.now) }
{
    let first = sizes.signature as usize;
    let start = sizes.start as usize;
    let end = Lead::SIZE
        + (HeaderRecord::SIZE + IndexRecord::SIZE * (signature.count() + Own::ENTRIES) + first);
    let number = sizes.length - sizes.start;
    structures::put_structure(out, start, header, sizes.header as usize);
    let digest = message_digest::md5(be::part(out, start, number as usize));
    layout::put_lead(out, name);
    structures::put_signature(out, Lead::SIZE, signature, first, number, &digest);
    put::zeros(out, end, start - end);
}

// Writes a package into a buffer: a lead name and, for each of the two structures, a list of entries.
pub fn write(
    name: &[u8],
    signature: &[u8],
    signature_data: &[u8],
    header: &[u8],
    header_data: &[u8],
    out: &mut [u8],
) -> Answer
    ensures { Wrote name.now signature.now signature_data.now
        header.now header_data.now out.old result out.new }
{
    let signature = Lent {
        list: signature,
        row: signature_data,
    };
    let header = Lent {
        list: header,
        row: header_data,
    };
    let sizes = plan::decide(name, &signature, &header, out.len())?;
    put_package(out, name, &signature, &header, sizes);
    Ok(sizes.length)
}
