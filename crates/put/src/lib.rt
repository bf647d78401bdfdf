// Bytes and numbers put into a lent buffer.
// Each function answers for any place: what the buffer has no room for is left out.
#![tactic(auto)]

ghost use Rattle.std.specs.Prelude.{◌≡◌, [], ◌∷◌, ◌++◌};
ghost use Rattle.std.proofs.lemmas.List.Edits.{sets};
ghost use Rattle.put.specs.Puts.{bytes_of, four_bytes, zeros};

// Puts the bytes of an array at a place: their number is known, so that they are copied at once.
fn array(out: &mut [u8], at: usize, from: &[u8])
    ensures { out.new ≡ sets out.old at from.now }
{
    let at = at.min(out.len());
    let room = out.len() - at;
    if from.len() <= room {
        out[at..at + from.len()].copy_from_slice(from);
    } else {
        out[at..].copy_from_slice(&from[..room]);
    }
}

// Puts bytes at a place, one by one: to copy lent bytes at once, the library for C would ask `memmove` of its host.
pub fn bytes(out: &mut [u8], at: usize, from: &[u8])
    ensures { out.new ≡ sets out.old at from.now }
{
    let n = from.len().min(out.len().saturating_sub(at));
    for i in 0..n {
        out[at + i] = from[i];
    }
}

// Puts four bytes at a place.
pub fn four(out: &mut [u8], at: usize, a: u8, b: u8, c: u8, d: u8)
    ensures { out.new ≡ sets out.old at (a ∷ b ∷ c ∷ d ∷ []) }
{
    array(out, at, &[a, b, c, d]);
}

// Puts a number at a place.
#[tactic(auto, unfolding(crate::specs::Puts::bytes_of))]
pub fn number(out: &mut [u8], at: usize, n: u32)
    ensures { out.new ≡ sets out.old at (bytes_of n) }
{
    array(out, at, &n.to_be_bytes());
}

// Puts `n` zero bytes at a place.
pub fn zeros(out: &mut [u8], at: usize, n: usize)
    ensures { out.new ≡ sets out.old at (zeros n) }
{
    let at = at.min(out.len());
    let n = n.min(out.len() - at);
    out[at..at + n].fill(0);
}

// Puts four numbers in a row at a place.
#[tactic(auto, unfolding(crate::specs::Puts::four_bytes, crate::specs::Puts::bytes_of))]
pub fn numbers(out: &mut [u8], at: usize, a: u32, b: u32, c: u32, d: u32)
    ensures { out.new ≡ sets out.old at (four_bytes a b c d) }
{
    let rows = [
        a.to_be_bytes(),
        b.to_be_bytes(),
        c.to_be_bytes(),
        d.to_be_bytes(),
    ];
    array(out, at, rows.as_flattened());
}

// Puts bytes and then `n` zero bytes at a place.
pub fn run(out: &mut [u8], at: usize, from: &[u8], n: usize)
    ensures { out.new ≡ sets out.old at (from.now ++ zeros n) }
{
    bytes(out, at, from);
    zeros(out, at.saturating_add(from.len()), n);
}
