// The models of a size, and what a search for them answers.
// `answer.rt` has the answers, from which `ladr_mace4` takes them. `specs/Models` has what the models of a size are,
// `specs/Complete` when no two of them are the same. `laws.rt` has the models of a problem and readings worked out; there
// is no other code. When a reading of the clock is late stands in `ladr_io`.
#![tactic(auto)]

mod answer;
mod laws;

pub use answer::SearchAnswer;
pub use laws::{worked, worked_readings};
