// The digest of a package, check 27; and that of any bytes, put into a lent buffer.
#![tactic(auto, unfolding(format::specs::Verdicts::check, crate::specs::Digests::digest_check, crate::specs::Lent::digest_answer, crate::specs::Lent::digest_after))]

ghost use Rattle.std.specs.Prelude.{◌≡◌};
ghost use Rattle.verify.specs.Digests.{from_header, digest_check};
ghost use Rattle.verify.specs.Lent.{DigestPut};

use format::{Answer, Refusal, Section, Verdict};

// The tag and the type of the signature's digest, bin, and its size.
#[derive(Drop)]
pub struct DigestEntry {}

impl DigestEntry {
    pub const TAG: u32 = 1004;

    pub const TYPE: u32 = 7;

    pub const SIZE: u32 = 16;
}

// The bytes from the header's start to the package's end.
fn from_header(pkg: &[u8], header: Section) -> &[u8]
    ensures { result.now ≡ from_header pkg.now header }
{
    let start = header.start.in_file();
    start.part(pkg, pkg.len())
}

// Check 27.
pub fn check(pkg: &[u8], signature: Section, header: Section) -> Verdict
    ensures { result ≡ digest_check pkg.now signature header }
{
    let stated = lookups::find_in(pkg, signature, DigestEntry::TAG, DigestEntry::TYPE);
    let found = message_digest::md5(from_header(pkg, header));
    if be::same(stated, &found) {
        return Ok(());
    }
    Err(Refusal::new(27, DigestEntry::TAG))
}

// Puts the digest of some bytes at the front of a buffer. Success is 0 with 16, and nothing behind the 16 bytes changes; a
// buffer with less room is 34 at 16, and nothing changes.
pub fn put_digest(bytes: &[u8], out: &mut [u8]) -> Answer
    ensures { DigestPut bytes.now out.old result out.new }
{
    if out.len() < DigestEntry::SIZE as usize {
        return Err(Refusal::new(34, DigestEntry::SIZE));
    }
    let digest = message_digest::md5(bytes);
    put::bytes(out, 0, &digest);
    Ok(DigestEntry::SIZE)
}
