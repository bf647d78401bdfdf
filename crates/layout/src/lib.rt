// The layout of a package that is written, and its lead.
#![tactic(auto)]

ghost use Rattle.std.specs.Prelude.{◌≡◌, ◌+◌, ◌≤◌};
ghost use Rattle.std.proofs.lemmas.List.Edits.{sets};
ghost use Rattle.layout.specs.Layout.{offset_for, name_bytes, lead_bytes};

use format::Lead;

// How many bytes the lead has for a name.
const NAME_FIELD: usize = 66;

// Where data of a type goes, at or after a place of the store.
pub fn offset_for(ty: u32, filled: u32) -> usize
    ensures { (result ≡ offset_for ty filled) × (filled ≤ result) × (result ≤ filled + 3) }
{
    let at = filled as usize;
    match ty {
        3 => at.next_multiple_of(2),
        4 => at.next_multiple_of(4),
        _ => at,
    }
}

// Puts a name into the lead, with zero bytes behind it.
fn put_name(out: &mut [u8], name: &[u8])
    ensures { out.new ≡ sets out.old 10 (name_bytes name.now) }
{
    let shown = be::part(name, 0, NAME_FIELD);
    put::run(out, Lead::NAME, shown, NAME_FIELD - shown.len());
}

// Puts the lead at the front.
pub fn put_lead(out: &mut [u8], name: &[u8])
    ensures { out.new ≡ sets out.old 0 (lead_bytes name.now) }
{
    put::number(out, Lead::MAGIC, 0xEDAB_EEDB);
    put::number(out, Lead::MAJOR, 0x0300_0000);
    put::zeros(out, Lead::ARCHITECTURE, 2);
    put_name(out, name);
    put::number(out, Lead::SYSTEM, 0x0001_0005);
    put::zeros(out, Lead::RESERVED, 16);
}
