// Standard input, and how many arguments there are, for the programs.
// Input is read up to its end, a read that fails, or as much as there is room for.
#![tactic(auto)]

ghost use Rattle.std.specs.Prelude.{MatchResult};
ghost use Rattle.input.specs.Counts.{IsPrefixLen};

use std::env::{Env, FillError};
use std::io::Read;

// A read failed, after so many bytes of input.
#[derive(Clone, Copy, Debug)]
pub struct Failed {
    pub count: usize,
}

// Reads input to the front of `room`, up to its end, a read that fails, or as much as `room` holds, and answers how many
// bytes.
pub fn read(from: &mut impl Read, room: &mut [u8]) -> Result<usize, Failed>
    ensures { MatchResult result (λ count. IsPrefixLen count room.new) (λ failed. IsPrefixLen failed.count room.new) }
{
    let mut count = 0;
    while count < room.len() {
        match from.read(&mut room[count..]) {
            Ok(0) => break,
            Ok(more) => count += more,
            Err(_) => return Err(Failed { count }),
        }
    }
    Ok(count)
}

// Whether argument `i` is there, also one of no bytes.
fn is_argument(rt: &impl Env, i: usize) -> bool {
    !matches!(rt.arg(i, &mut [0u8; 1]), Err(FillError::NotPresent))
}

// How many arguments there are, the program's name among them.
pub fn arg_count(rt: &impl Env) -> usize {
    (0..usize::MAX).take_while(|i| is_argument(rt, *i)).count()
}
