// Blocks of 64 bytes, as MD5 works them into its registers: four rounds of 16 steps (RFC 1321, 3.4).
#![tactic(auto)]

ghost use Rattle.std.specs.Prelude.{◌≡◌, ◌/◌, ◌<◌, ◌≤◌, length};
ghost use Rattle.words.specs.Words.{word_at};
ghost use Rattle.rounds.specs.Table.{table};
ghost use Rattle.rounds.specs.Rounds.{round, block, blocks};
ghost use Rattle.rounds.specs.Steps.{word_of, first_of, shift_of, turned, step};

use words::{Round, State};

// T[i] of RFC 1321 at i - 1.
const T: [u32; 64] = [
    0xd76aa478, 0xe8c7b756, 0x242070db, 0xc1bdceee, 0xf57c0faf, 0x4787c62a, 0xa8304613, 0xfd469501,
    0x698098d8, 0x8b44f7af, 0xffff5bb1, 0x895cd7be, 0x6b901122, 0xfd987193, 0xa679438e, 0x49b40821,
    0xf61e2562, 0xc040b340, 0x265e5a51, 0xe9b6c7aa, 0xd62f105d, 0x02441453, 0xd8a1e681, 0xe7d3fbc8,
    0x21e1cde6, 0xc33707d6, 0xf4d50d87, 0x455a14ed, 0xa9e3e905, 0xfcefa3f8, 0x676f02d9, 0x8d2a4c8a,
    0xfffa3942, 0x8771f681, 0x6d9d6122, 0xfde5380c, 0xa4beea44, 0x4bdecfa9, 0xf6bb4b60, 0xbebfbc70,
    0x289b7ec6, 0xeaa127fa, 0xd4ef3085, 0x04881d05, 0xd9d4d039, 0xe6db99e5, 0x1fa27cf8, 0xc4ac5665,
    0xf4292244, 0x432aff97, 0xab9423a7, 0xfc93a039, 0x655b59c3, 0x8f0ccc92, 0xffeff47d, 0x85845dd1,
    0x6fa87e4f, 0xfe2ce6e0, 0xa3014314, 0x4e0811a1, 0xf7537e82, 0xbd3af235, 0x2ad7d2bb, 0xeb86d391,
];

// The table T. A caller takes it once and lends it: an index of T itself in a loop would copy the table.
#[tactic(auto, unfolding(crate::specs::Table::table))]
pub fn table() -> [u32; 64]
    ensures { result ≡ table }
{
    T
}

// The word that a round takes in its n-th step.
#[tactic(auto, unfolding(crate::specs::Steps::word_of))]
fn word_of(r: Round, n: usize) -> usize
    requires { n < 16 }
    ensures { (result ≡ word_of r n) × (result < 16) }
{
    match r {
        Round::One => n,
        Round::Two => (5 * n + 1) % 16,
        Round::Three => (3 * n + 5) % 16,
        Round::Four => 7 * n % 16,
    }
}

// The place in the table of a round's first step.
fn first_of(r: Round) -> usize
    ensures { (result ≡ first_of r) × (result ≤ 48) }
{
    match r {
        Round::One => 0,
        Round::Two => 16,
        Round::Three => 32,
        Round::Four => 48,
    }
}

// The shift of a round's n-th step: its first four come round again.
#[tactic(auto, unfolding(crate::specs::Steps::shift_of, crate::specs::Steps::shifts))]
fn shift_of(r: Round, n: usize) -> u32
    ensures { (result ≡ shift_of r n) × (result < 32) }
{
    let shifts: &[u32; 4] = match r {
        Round::One => &[7, 12, 17, 22],
        Round::Two => &[5, 9, 14, 20],
        Round::Three => &[4, 11, 16, 23],
        Round::Four => &[6, 10, 15, 21],
    };
    shifts[n % 4]
}

// Word k of a block.
#[tactic(auto, unfolding(words::specs::Words::word_at))]
fn word(block: &[u8], k: usize) -> u32
    requires { (k < 16) × (length block.now ≡ 64) }
    ensures { result ≡ word_at block.now k }
{
    let at = 4 * k;
    u32::from_le_bytes([block[at], block[at + 1], block[at + 2], block[at + 3]])
}

// The registers after a step, moved one place on.
#[tactic(auto, using(words::proofs::RotateLaws::rotate_left_is), unfolding(crate::specs::Steps::turned))]
fn turn(q: State, mixed: u32, x: u32, t: u32, s: u32) -> State
    requires { s < 32 }
    ensures { result ≡ turned q mixed x t s }
{
    let sum = q.a.wrapping_add(mixed).wrapping_add(x).wrapping_add(t);
    State {
        a: q.d,
        b: q.b.wrapping_add(sum.rotate_left(s)),
        c: q.b,
        d: q.c,
    }
}

// Step n of a round.
#[tactic(auto, unfolding(crate::specs::Steps::step))]
fn one_step(r: Round, part: &[u8], t: &[u32; 64], n: usize, q: State) -> State
    requires n_bound { n < 16 }
    requires part_len { length part.now ≡ 64 }
    ensures { result ≡ step r part.now t.now n q }
{
    let x = word(part, word_of(r, n));
    let constant = t[first_of(r) + n];
    turn(q, r.mix(q.b, q.c, q.d), x, constant, shift_of(r, n))
}

// A round: its 16 operations.
fn one_round(r: Round, part: &[u8], t: &[u32; 64], begin: State) -> State
    requires { length part.now ≡ 64 }
    ensures { result ≡ round r part.now t.now begin }
{
    let mut q = begin;
    for n in 0..16 {
        q = one_step(r, part, t, n, q);
    }
    q
}

// One block: the four rounds, then the registers are increased.
#[tactic(auto, unfolding(crate::specs::Rounds::block))]
fn one_block(part: &[u8], t: &[u32; 64], q: State) -> State
    requires { length part.now ≡ 64 }
    ensures { result ≡ block part.now t.now q }
{
    let q1 = one_round(Round::One, part, t, q);
    let q2 = one_round(Round::Two, part, t, q1);
    let q3 = one_round(Round::Three, part, t, q2);
    let q4 = one_round(Round::Four, part, t, q3);
    q4.increase(q)
}

// The whole blocks of some bytes, with a table.
pub fn run(s: &[u8], t: &[u32; 64], begin: State) -> State
    ensures { result ≡ blocks s.now t.now (length s.now / 64) 0 begin }
{
    let mut q = begin;
    for part in s.chunks_exact(64) {
        q = one_block(part, t, q);
    }
    q
}
