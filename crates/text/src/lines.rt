// Numbers in decimal on a line.
ghost use Rattle.std.specs.Prelude.{◌≡◌, ◌+◌, ◌≤◌, [], ◌∷◌, ◌++◌, length};
ghost use Rattle.text.specs.Lines.{numeral_of, line_for, Put};

// Writes the decimal digits of a number from `at` on, and answers the place behind them.
#[tactic(auto, using(crate::proofs::LineLaws::last_place_lem))]
fn digits(n: u32, out: &mut [u8], at: usize) -> usize
    requires { at + length (numeral_of n) ≤ length out.old }
    ensures { Put out.old at (numeral_of n) result out.new }
{
    if n < 10 {
        out[at] = b'0' + n as u8;
        return at + 1;
    }
    let last = digits(n / 10, out, at);
    out[last] = b'0' + (n % 10) as u8;
    last + 1
}

// Writes a number and the byte behind it.
#[tactic(auto, using(crate::proofs::LineLaws::end_place))]
fn word(n: u32, end: u8, out: &mut [u8], at: usize) -> usize
    requires { at + 11 ≤ length out.old }
    ensures { Put out.old at (numeral_of n ++ end ∷ []) result out.new }
{
    let last = digits(n, out, at);
    out[last] = end;
    last + 1
}

// Writes numbers in decimal at the front of `out`, one space between two and a newline behind the last, and answers
// how many bytes that took. Without 11 bytes for each number it writes nothing. What stands behind the line stays.
pub fn line(numbers: &[u32], out: &mut [u8]) -> usize
    ensures { Put out.old 0 (line_for numbers.now out.old) result out.new }
{
    if out.len() / 11 < numbers.len() {
        return 0;
    }
    let Some((last, front)) = numbers.split_last() else {
        return 0;
    };
    let mut at = 0;
    for n in front {
        at = word(*n, b' ', out, at);
    }
    word(*last, b'\n', out, at)
}
