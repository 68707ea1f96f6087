// Clauses that subsume others, and clauses that are always true.
// `subsuming.rt` tells whether a clause subsumes another: the numbers of literals are compared, then each literal has
// to match some literal of the other, and only then ways are tried, literal by literal: what a literal is matched to
// gives terms for variables, which are taken back where no way goes on. That takes no memory: the caller has room for
// the places of the literals and for the terms of their variables (`room.rt`). The definition leaves out the literals at
// places that are taken (`specs/Unused`). `tautologies.rt` tells clauses that are always true.
#![tactic(auto)]

mod room;
mod subsuming;
mod tautologies;

pub use room::Places;
pub use subsuming::subsumes;
pub use tautologies::is_tautology;
