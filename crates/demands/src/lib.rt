// The letter's demands, proved of the reading, and the calls that read at two editions.
#![tactic(auto)]

ghost use Rattle.demands.specs.Demands.{ReadBoth, ReadBothBytes};

use format::Answer;

// What the readings at two editions answer.
#[derive(Clone, Copy)]
pub struct Answers {
    pub first: Answer,
    pub second: Answer,
}

// Reads a package at one edition into one buffer and at another into another. Each reading answers and leaves its buffer as
// `reading::read` does, whatever the numbers; where the first is the earlier of two known editions and the buffers held the
// same numbers, the two agree as the letter's third demand says.
pub fn read_both(
    earlier: u32,
    later: u32,
    pkg: &[u8],
    early: &mut [u32],
    late: &mut [u32],
) -> Answers
    ensures { ReadBoth earlier later pkg.now early.old late.old result.first
        result.second early.new late.new }
{
    let first = reading::read(earlier, pkg, early);
    let second = reading::read(later, pkg, late);
    Answers { first, second }
}

// The same into buffers of bytes, four to a number, big-endian.
pub fn read_both_bytes(
    earlier: u32,
    later: u32,
    pkg: &[u8],
    early: &mut [u8],
    late: &mut [u8],
) -> Answers
    ensures { ReadBothBytes earlier later pkg.now early.old late.old result.first
        result.second early.new late.new }
{
    let first = reading::read_bytes(earlier, pkg, early);
    let second = reading::read_bytes(later, pkg, late);
    Answers { first, second }
}
