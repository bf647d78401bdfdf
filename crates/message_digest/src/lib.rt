// The MD5 digest of any bytes (RFC 1321).
#![tactic(auto)]

ghost use Rattle.std.specs.Prelude.{◌≡◌};
ghost use Rattle.rounds.specs.Table.{table};
ghost use Rattle.message_digest.specs.Md5.{output, digest};
ghost use Rattle.message_digest.specs.Ending.{finished};

use words::State;

// What is left of the message after its whole blocks, and the padding: one block or two.
fn finish(s: &[u8], t: &[u32; 64], q: State) -> State
    requires { t.now ≡ table }
    ensures { result ≡ finished s.now q }
{
    let left = s.chunks_exact(64).remainder();
    let rest = left.len();
    let mut last = [0u8; 128];
    last[..rest].copy_from_slice(left);
    last[rest] = 128;
    let zeros = (119 - rest) % 64;
    let at = rest + 1 + zeros;
    let size = at + 8;
    let bits = (s.len() as u64).wrapping_mul(8);
    last[at..size].copy_from_slice(&bits.to_le_bytes());
    rounds::run(&last[..size], t, q)
}

// The registers as bytes: A, B, C and D, each with its low-order byte first.
fn put(q: State) -> [u8; 16]
    ensures { result ≡ output q }
{
    let mut out = [0u8; 16];
    out[..4].copy_from_slice(&q.a.to_le_bytes());
    out[4..8].copy_from_slice(&q.b.to_le_bytes());
    out[8..12].copy_from_slice(&q.c.to_le_bytes());
    out[12..].copy_from_slice(&q.d.to_le_bytes());
    out
}

// The digest of a message: 16 bytes.
#[tactic(auto, using(crate::proofs::EndingLaws::digest_is), unfolding(crate::specs::Md5::start))]
pub fn md5(message: &[u8]) -> [u8; 16]
    ensures { result ≡ digest message.now }
{
    let t = rounds::table();
    let begin = State {
        a: 0x67452301,
        b: 0xefcdab89,
        c: 0x98badcfe,
        d: 0x10325476,
    };
    let whole = rounds::run(message, &t, begin);
    put(finish(message, &t, whole))
}
