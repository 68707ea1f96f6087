// The command that tells which formulas of an input are true in its interpretations, and the one that keeps those in
// which all are.
// `testing.rt` is the story of a run: `verdicts.rt` asks for the truth of each formula in an interpretation, `report.rt`
// makes the lines, and `filter.rt` writes the interpretations that are kept. `specs/Verdicts`, `specs/Report` and
// `specs/Filtering` define these. `laws.rt` has interpretations worked out, and states that what is written of one
// reads back as it. Nothing is searched: the truth is `model_tables`' truth of closures.
#![tactic(auto)]

mod filter;
mod laws;
mod report;
mod testing;
mod verdicts;

pub use laws::{filters_read_back, worked};
pub use testing::{Tested, clausetester, filter_interpretations};
