// Big-endian numbers and parts of a slice.
// Each function answers for any place: a byte past the end reads as 0, and a part ends where the slice
// does.
#![tactic(auto)]

ghost use Rattle.std.specs.Prelude.{◌≡◌, ℕ, ◌+◌, ◌*◌, ◌-◌, ◌≤◌, ◌<◌, length, get_or, take, drop};
ghost use Rattle.be.specs.Numbers.{be16_at, be32_at};
ghost use Rattle.be.specs.Bytes.{same_bytes};

// The byte at a place.
pub fn byte_at(s: &[u8], at: usize) -> u8
    ensures { result ≡ get_or s.now at 0 }
{
    s.get(at).copied().unwrap_or(0)
}

// The bytes from a place on.
fn from_place(s: &[u8], at: usize) -> &[u8]
    ensures { result.now ≡ drop at s.now }
{
    s.get(at..).unwrap_or(&[])
}

// The `N` bytes at a place.
fn bytes_at<const N: usize>(s: &[u8], at: usize) -> [u8; N]
    ensures { (k : ℕ) → k < N → get_or result k 0 ≡ get_or s.now (at + k) 0 }
{
    let rest = from_place(s, at);
    match rest.first_chunk() {
        Some(bytes) => *bytes,
        None => {
            let mut bytes = [0; N];
            bytes[..rest.len()].copy_from_slice(rest);
            bytes
        }
    }
}

// The number of two bytes, the high one first.
pub fn join16(a: u8, b: u8) -> u16
    ensures { result ≡ a * 256 + b }
{
    u16::from_be_bytes([a, b])
}

// The number of four bytes, the high one first.
pub fn join32(a: u8, b: u8, c: u8, d: u8) -> u32
    ensures { result ≡ a * 16777216 + b * 65536 + c * 256 + d }
{
    u32::from_be_bytes([a, b, c, d])
}

// The 16-bit number at a place.
#[tactic(auto, unfolding(crate::specs::Numbers::be16_at))]
pub fn be16(s: &[u8], at: usize) -> u16
    ensures { result ≡ be16_at s.now at }
{
    u16::from_be_bytes(bytes_at(s, at))
}

// The 32-bit number at a place.
#[tactic(auto, unfolding(crate::specs::Numbers::be32_at))]
pub fn be32(s: &[u8], at: usize) -> u32
    ensures { result ≡ be32_at s.now at }
{
    u32::from_be_bytes(bytes_at(s, at))
}

// The part of `extent` bytes from a place.
pub fn part(s: &[u8], from: usize, extent: usize) -> &[u8]
    ensures { result.now ≡ take extent (drop from s.now) }
{
    let rest = from_place(s, from);
    rest.get(..extent).unwrap_or(rest)
}

// Whether two slices hold the same bytes.
#[tactic(auto, unfolding(crate::specs::Bytes::same_bytes))]
pub fn same(a: &[u8], b: &[u8]) -> bool
    ensures { result ≡ same_bytes a.now b.now }
{
    a == b
}
