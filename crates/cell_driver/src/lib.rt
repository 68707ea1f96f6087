// The search for models cell by cell, over any board of cells, as the plain search goes.
// `driver.rt` has the search: a cell is chosen, its values are tried in rising order, and where none is left the choice
// before it goes on. It knows its cells by the trait `Board` alone (`board.rt`), which tells of the decisions that
// stand whether a cell is to be chosen, whether they settle all values, or that the clauses contradict them; each time
// as the table of the plain search behind these decisions does (`specs/Boards`). So the models come in its order, and the
// clock is read once for each of its choices (`specs/Comings`). `watch.rt` looks at the clock, and `laws.rt` has it that the k-th model is the k-th leaf.
#![tactic(auto)]

mod board;
mod driver;
mod laws;
mod watch;

pub use board::{Board, Status};
pub use driver::next_model;
pub use laws::models_are_leaves;
