// What a run of checks finds, and what a public call answers.
ghost use Rattle.std.specs.Prelude.{◌≡◌};
ghost use Rattle.format.specs.Verdicts.{refusal, packed_of};

use std::error::Error;
use std::fmt;

// The number of the first check that failed, and its place.
#[derive(Clone, Copy, Debug, PartialEq, Eq)]
pub struct Refusal {
    pub number: u32,
    pub place: u32,
}

// What a run of checks finds: all of them passed, or the first did not.
pub type Verdict = Result<(), Refusal>;

// Success with its place, or the refusal.
pub type Answer = Result<u32, Refusal>;

impl Refusal {
    pub fn new(number: u32, place: u32) -> Self
        ensures { result ≡ refusal number place }
    {
        Self { number, place }
    }
}

impl fmt::Display for Refusal {
    fn fmt<W: fmt::Write>(&self, f: &mut fmt::Formatter<W>) -> fmt::Result {
        write!(f, "{} at {}", self.number, self.place)
    }
}

impl Error for Refusal {}

// Number and place in one number, number × 2^32 + place; success has number 0.
pub fn packed(answer: Answer) -> u64
    ensures { result ≡ packed_of answer }
{
    match answer {
        Ok(place) => place as u64,
        Err(refusal) => refusal.number as u64 * 4294967296 + refusal.place as u64,
    }
}
