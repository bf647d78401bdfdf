// Numbers and bytes as text, for the programs.
// A decimal word is read, bytes are written in hex, numbers on a line.
#![tactic(auto)]

pub mod lines;

ghost use Rattle.std.specs.Prelude.{◌≡◌, ◌<◌};
ghost use Rattle.text.specs.Decimal.{decimal_of};
ghost use Rattle.text.specs.Hex.{hex_digit, hex_line, Spelled};

pub use lines::line;

// The number that a word spells: one or more decimal digits, of a value that fits 32 bits.
#[tactic(auto, using(crate::proofs::DecimalLaws::ways))]
pub fn decimal(word: &[u8]) -> Option<u32>
    ensures { result ≡ decimal_of word.now }
{
    if word.is_empty() {
        return None;
    }
    let mut value: u32 = 0;
    for b in word {
        let digit = char::from(*b).to_digit(10)?;
        value = value.checked_mul(10)?.checked_add(digit)?;
    }
    Some(value)
}

// The hex digit of a number below 16.
#[tactic(auto, unfolding(crate::specs::Hex::hex_digit))]
fn hex_digit(n: u8) -> u8
    requires { n < 16 }
    ensures { result ≡ hex_digit n }
{
    if n < 10 { b'0' + n } else { b'a' + (n - 10) }
}

// Spells the first bytes of `src` in hex at the front of `out`, as many as fit, and answers how many bytes of `out`
// that took. What stands behind them stays.
pub fn hex(src: &[u8], out: &mut [u8]) -> usize
    ensures { Spelled src.now out.old result out.new }
{
    let shown = src.len().min(out.len() / 2);
    for (i, b) in src[..shown].iter().enumerate() {
        out[2 * i] = hex_digit(b / 16);
        out[2 * i + 1] = hex_digit(b % 16);
    }
    2 * shown
}

// Sixteen bytes in hex, and a newline.
pub fn hex_line(src: [u8; 16]) -> [u8; 33]
    ensures { result ≡ hex_line src }
{
    let mut line = [b'\n'; 33];
    hex(&src, &mut line);
    line
}
