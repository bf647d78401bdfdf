// The lines of the catalogue: checks 14 and 15.
#![tactic(auto, unfolding(format::specs::Verdicts::both, format::specs::Verdicts::check, crate::specs::Lines::lines_check))]

ghost use Rattle.std.specs.Prelude.{◌≡◌};
ghost use Rattle.catalogue.specs.Lists.{lines_had, signature_of, header_of};
ghost use Rattle.tags.specs.Tables.{shown_by};
ghost use Rattle.lines.specs.Lines.{line_check, lines_of, lines_check};

use catalogue::Line;
use format::{Refusal, Verdict};
use tags::Table;

// Checks 14 and 15 for one line.
#[inline(always)]
fn line_check(tags: &Table, line: Line) -> Verdict
    ensures { result ≡ line_check (shown_by tags.now) line }
{
    match tags.look(line.tag) {
        None if line.is_required() => Err(Refusal::new(14, line.tag)),
        Some(e) if !line.allows(e.ty, e.count) => Err(Refusal::new(15, line.tag)),
        _ => Ok(()),
    }
}

// Checks 14 and 15 for those of some lines that the edition has, in order.
fn lines_of(edition: u32, tags: &Table, lines: &[Line]) -> Verdict
    ensures { result ≡ lines_of (shown_by tags.now) (lines_had edition lines.now) }
{
    for line in lines {
        if line.in_edition(edition) {
            line_check(tags, *line)?;
        }
    }
    Ok(())
}

// Checks 14 and 15: the signature's lines, then the header's.
pub fn check(edition: u32, signature: &Table, header: &Table) -> Verdict
    ensures { result ≡ lines_check (signature_of edition) (header_of edition)
        (shown_by signature.now) (shown_by header.now) }
{
    let lines = catalogue::table();
    lines_of(edition, signature, &lines[..Line::SIGNATURE])?;
    lines_of(edition, header, &lines[Line::SIGNATURE..])
}
