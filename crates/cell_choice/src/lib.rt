// Which cell a search chooses, and which of its values it tries.
// `choice.rt` picks a cell: the candidates are all cells without a value, those of least index, or those of which the
// index is in use, and one is preferred by a score (`specs/Choosing`). Where this is how many values are crossed off a cell,
// or all are alike, it asks the trail, which keeps the cells without a value ranked (`cell_ranks`), so no choice passes over
// the cells; other scores are told, and one pass over the cells has the highest. `shape.rt` has what the choice looks at, a
// cell's kind and its index, and `tried.rt` up to which value a cell is tried.
// `laws.rt` has the law on which that rests, the least-number heuristic (`proofs/Exchanging`): an element above all
// that numerals, decisions and the cell's arguments name can be exchanged with a greater one, and the clauses and the
// decisions stay true.
#![tactic(auto)]

mod choice;
mod laws;
mod shape;
mod tried;

pub use choice::{highest, is_up_to, limit, pick};
pub use laws::least_numbers;
pub use shape::{CellShape, indices, shapes};
pub use tried::{above_decision, greatest_tried};
