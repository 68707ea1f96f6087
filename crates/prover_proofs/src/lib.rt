// The proofs of a search: the lines that an empty clause rests on, their levels and their sizes.
// `lines.rt` has `SearchLines`: the formulas of a problem, their clauses and the lines that a search made, where they
// are, numbered from 1 on. It marks the lines that one of them rests on, by the numbers that their words take, and
// copies these alone; no other line is copied or built (`proofs/Placed`, `Taking`; `proofs/Marking` of `clause_store`).
// `written.rt` makes one line of a proof, and `found.rt` puts a proof together. `measures.rt` has the level of a line,
// worked out line by line, and how many symbols and variables the greatest clause has.
// `specs/SearchLines` and `specs/Levels` say the same of lines as lists. `laws.rt` states that the proofs of a search
// are refutations of its problem.
#![tactic(auto)]

mod found;
mod laws;
mod lines;
mod measures;
mod written;

pub use found::Proof;
pub use laws::{proofs_refute, state_lines_say, worked};
pub use lines::SearchLines;
pub use written::role_at;
