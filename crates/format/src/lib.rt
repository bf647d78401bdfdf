// Lead, header record and index record, a structure's parts, verdict and answer.
#![tactic(auto)]

pub mod lead;
pub mod records;
pub mod section;
pub mod verdict;

pub use lead::Lead;
pub use records::{HeaderRecord, IndexRecord};
pub use section::{Section, Structure};
pub use verdict::{Answer, Refusal, Verdict, packed};
