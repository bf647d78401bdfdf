// The size tag: check 16, and 14 to 18 in order.
#![tactic(auto, unfolding(format::specs::Verdicts::check, crate::specs::Rules::size_tag_check))]

ghost use Rattle.std.specs.Prelude.{◌≡◌};
ghost use Rattle.catalogue.specs.Lists.{signature_of, header_of};
ghost use Rattle.tags.specs.Tables.{shown_by};
ghost use Rattle.rules.specs.Rules.{size_tag_check, rules_check};

use format::{Refusal, Section, Verdict};
use tags::Table;

// Check 16: the size is that of what there is from the header's start to the package's end.
fn size_tag_check(
    pkg: &[u8],
    len: u32,
    signature: Section,
    header: Section,
    tags: &Table,
) -> Verdict
    ensures { result ≡ size_tag_check pkg.now len signature header (shown_by tags.now) }
{
    if tags.number(pkg, signature, 1000) != len.saturating_sub(header.start.get()) {
        return Err(Refusal {
            number: 16,
            place: 1000,
        });
    }
    Ok(())
}

// Checks 14 to 18 at an edition, in a package of `len` bytes.
pub fn check(edition: u32, pkg: &[u8], len: u32, signature: Section, header: Section) -> Verdict
    ensures { result ≡ rules_check (signature_of edition) (header_of edition) pkg.now len signature header }
{
    let mut first = Table::new();
    first.gather(pkg, signature);
    let mut second = Table::new();
    second.gather(pkg, header);
    lines::check(edition, &first, &second)?;
    size_tag_check(pkg, len, signature, header, &first)?;
    groups::check(pkg, header, &first, &second)?;
    texts::check(pkg, header, &second)
}
