// A whole package: checks 2 to 4, and 2 to 13 and 28 in order.
#![tactic(auto, unfolding(format::specs::Verdicts::both, format::specs::Verdicts::check, crate::specs::Lead::lead_check, crate::specs::Package::size_check, crate::specs::Package::structures_check, crate::specs::Package::package_check, crate::specs::Package::opened))]

ghost use Rattle.std.specs.Prelude.{◌≡◌, ◌+◌, ◌≤◌};
ghost use Rattle.format.specs.Sizes.{package_limit};
ghost use Rattle.format.specs.Places.{section_end};
ghost use Rattle.package.specs.Lead.{lead_check};
ghost use Rattle.package.specs.Package.{size_check, header_start, structures_opened, opened, section_for};

use format::{Lead, Refusal, Section, Structure, Verdict};
use places::{FileOffset, Start};

// A package that passed checks 2 to 13 and 28, by its two structures.
#[derive(Clone, Copy)]
pub struct Opened {
    pub signature: Section,
    pub header: Section,
}

impl Opened {
    // One of the two structures: 0 is the signature, any other number the header.
    pub fn section(self, which: u32) -> Section
        ensures { result ≡ section_for which self.signature self.header }
    {
        if which == 0 {
            self.signature
        } else {
            self.header
        }
    }
}

// Checks 2 and 3.
fn size_check(len: usize) -> Verdict
    ensures { result ≡ size_check len }
{
    if FileOffset::LIMIT < len {
        return Err(Refusal::new(2, 0));
    }
    if len < Lead::SIZE {
        return Err(Refusal::new(3, len as u32));
    }
    Ok(())
}

// Check 4.
fn lead_check(lead: Lead) -> Verdict
    ensures { result ≡ lead_check lead }
{
    if lead.magic != 0xEDAB_EEDB {
        return Err(Refusal::new(4, Lead::MAGIC as u32));
    }
    if lead.major != 3 {
        return Err(Refusal::new(4, Lead::MAJOR as u32));
    }
    if lead.minor != 0 {
        return Err(Refusal::new(4, Lead::MINOR as u32));
    }
    if lead.ty != 0 {
        return Err(Refusal::new(4, Lead::TYPE as u32));
    }
    if !lead.named {
        return Err(Refusal::new(4, Lead::NAME as u32));
    }
    if lead.system != 1 {
        return Err(Refusal::new(4, Lead::SYSTEM as u32));
    }
    if lead.signature_type != 5 {
        return Err(Refusal::new(4, Lead::SIGNATURE_TYPE as u32));
    }
    Ok(())
}

// Where the header starts: the first multiple of 8 at or after the signature's end.
fn header_start(signature: Section) -> Start
    requires { section_end signature ≤ package_limit }
    ensures { result.0 ≡ header_start signature }
{
    let end = signature.end();
    Start::of(((end.get() + 7) / 8 * 8) as u32)
}

// Checks 5 to 13 for the signature, 28 for the gap behind it, then 5 to 13 for the header.
fn structures(pkg: &[u8], len: u32) -> Result<Opened, Refusal>
    requires { len ≤ package_limit }
    ensures { result ≡ structures_opened pkg.now len }
{
    let signature = structure::check(Structure::Signature, pkg, len, Start::of(Lead::SIZE as u32))?;
    let start = header_start(signature);
    gap::check(pkg, len, signature.end(), start)?;
    let header = structure::check(Structure::Header, pkg, len, start)?;
    Ok(Opened { signature, header })
}

// Checks 2 to 13 and 28.
pub fn open(pkg: &[u8]) -> Result<Opened, Refusal>
    ensures { result ≡ opened pkg.now }
{
    let len = pkg.len();
    size_check(len)?;
    lead_check(Lead::of(pkg))?;
    structures(pkg, len as u32)
}
