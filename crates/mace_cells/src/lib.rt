// What a search for models cell by cell stands on: worlds and their solutions, choices, cells with their values.
// The choices that stand are data (`frame.rt`), and what a search leaves is said by them alone: `specs/Choices` has what is
// ahead of a search, `Solutions` solutions and renamings, `Leaves` what a step leaves, and `Readings` how often the clock
// was read. `specs/Numbers` has the numbers in use and up to which value a cell is tried, and a world says by `Way`
// (`way.rt`) how cells are chosen.
// `stack.rt` has stacks of fixed room, `trail.rt` the values of cells and those that were crossed off, as the list of
// steps that made them, so that taking back is exact; it keeps the cells without a value in `cell_ranks`, with how many
// values are crossed off each where that counts.
#![tactic(auto)]

mod frame;
mod stack;
mod trail;
mod way;

pub use frame::Frame;
pub use stack::Stack;
pub use trail::{Trail, TrailEntry};
pub use way::{Candidates, CellMeasure, Way};
