// Walking an index: check 26.
// A position by value hands back the next.
#![tactic(auto, unfolding(package::specs::Package::opened, crate::specs::Walk::step_of))]

ghost use Rattle.std.specs.Prelude.{◌≡◌, ℕ, ◌+◌, ◌≤◌, ◌<◌};
ghost use Rattle.format.specs.Sizes.{package_limit};
ghost use Rattle.format.specs.Places.{section_end};
ghost use Rattle.walk.specs.Walk.{refused_step, step_in, step_of};

use format::{Answer, IndexRecord, Refusal, Section};
use places::StoreOffset;

// A position in an index: the number of a record.
#[derive(Clone, Copy)]
pub struct Position {
    pub number: u32,
}

// What a step answers: number and place, the record's four numbers, and the next position.
#[derive(Clone, Copy)]
pub struct Step {
    pub answer: Answer,
    pub found: IndexRecord,
    pub next: Position,
}

// A refused step: four zeros and the same position.
fn refused(refusal: Refusal, position: u32) -> Step
    ensures { result ≡ refused_step refusal.number refusal.place position }
{
    Step {
        answer: Err(refusal),
        found: IndexRecord {
            tag: 0,
            ty: 0,
            offset: StoreOffset::of(0),
            count: 0,
        },
        next: Position { number: position },
    }
}

// The step in a structure that lies in the package.
fn step_in(pkg: &[u8], section: Section, position: u32) -> Step
    requires { section_end section ≤ package_limit }
    ensures { result ≡ step_in pkg.now section position }
{
    if section.nindex <= position {
        let past = Refusal::new(26, 0);
        return refused(past, position);
    }
    let place = section.index_record(position);
    Step {
        answer: Ok(place.get() as u32),
        found: IndexRecord::at(pkg, place),
        next: Position {
            number: position + 1,
        },
    }
}

impl Position {
    // The first position of every index.
    pub fn first() -> Self
        ensures { result.number ≡ 0 }
    {
        Self { number: 0 }
    }

    // Checks 2 to 13 and 28, then the record at this position: 26 at or above the number of records.
    pub fn step(self, pkg: &[u8], which: u32) -> Step
        ensures { result ≡ step_of pkg.now which self.number }
    {
        match package::open(pkg) {
            Ok(opened) => step_in(pkg, opened.section(which), self.number),
            Err(refusal) => refused(refusal, self.number),
        }
    }
}
