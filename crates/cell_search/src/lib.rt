// The search for models itself: a board of cells that is closed under what the clauses ask, and the tables of a model.
// `search.rt` has `CellSearch`, which takes all its memory at the beginning. `setup.rt` has the clauses, the cells and
// what values each can have; `cells.rt` is its board. Ground clauses aren't stored: `walks.rt` makes ways through their
// instances (`walk.rt`), one for each clause and one for each place at which a symbol stands, and `going.rt` goes the
// latter for each cell that got a value, with the steps of the trail as its queue.
// `seen.rt` and `literals.rt` tell values of terms and truth of literals as far as cells have values, `look.rt` what an
// instance asks, `asks.rt` of which cell, and `closing.rt` does it: a value is given or crossed off. A cell with one
// value left gets it, and an instance that is looked at and has all its literals false is a contradiction.
// That no solution gets lost is said of each of these steps for all interpretations. Each is also one of the plain search
// (`plain_search`): a look is what an instance tells, what it asks is done, no more and no less, and closing goes over all
// instances that its steps may touch, so that it comes to the closure of the table. So a closed table is that of the plain
// search behind the same decisions (`specs/Phases`), and the cell that is picked in it is the one that the plain search
// chooses (`specs/Choosing`): models come as its leaves do, in their order (`cell_driver`). Where the choice is by scores
// that no trail keeps, `scores.rt` works them out anew for each choice: `occurrences.rt` by a pass over all instances,
// `trying.rt` by the closure with each value that a cell has left, which is taken back. `tables.rt` has the tables of a
// model. Answered is the next model, that there is none, or that the time is over.
#![tactic(auto)]

mod asks;
mod cells;
mod closing;
mod going;
mod laws;
mod literals;
mod look;
mod occurrences;
mod scores;
mod search;
mod seen;
mod setup;
mod tables;
mod trying;
mod walk;
mod walks;

pub use laws::{leaves_are_solutions, looks_are_told, picks_are_chosen, tables_are_partial};
pub use search::CellSearch;
