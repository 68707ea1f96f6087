// Cells and ground instances, by which models are searched for.
// A cell is a symbol with a list of elements for its arguments. `counting.rt` counts cells and ground literals, before
// anything is built; `ground.rt` has the ground instances of clauses, `blocks.rt` and `variables.rt` where the cells of
// a symbol and the variables of a clause stand. `specs/Cells`, `Count` and `Instances` define them, and `laws.rt` has
// laws and examples.
#![tactic(auto)]

mod blocks;
mod counting;
mod ground;
mod laws;
mod variables;

pub use blocks::{Block, Blocks, Span};
pub use counting::{count, power};
pub use ground::Ground;
pub use laws::{cells_by_number, instances_suffice, worked};
pub use variables::variables_in;
