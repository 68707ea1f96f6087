// Lines as they are written, the lines that one takes and rests on, and a store of lines.
// `parents.rt` has the numbers of the lines that a line takes by its words, and `copying.rt` copies words and labels:
// these serve each proof that is printed. `specs/Ancestors` says which lines a line rests on, `specs/Lines` what stands
// in a line, and `laws.rt` has the law that ancestors are a derivation where all lines are one, and those of the empty
// clause a refutation (`proofs/Keeping`). `prover_proofs` marks the lines of a search that one rests on.
// `store.rt` has `Store`, which no run calls: its lines are numbered from 1 on, those of the problem's formulas, then
// clauses, each with its words. A clause is kept there as signs and atoms of a bank (`stored.rt`); contracts read it
// through the bank that is lent. `ancestors.rt` marks those that one rests on.
#![tactic(auto)]

mod ancestors;
mod copying;
mod laws;
mod lines;
mod parents;
mod store;
mod stored;

pub use copying::{copy_just, copy_label};
pub use laws::{ancestors_are_one, ancestors_derive, lines_say_the_same, worked};
pub use lines::{StoredContent, StoredLine};
pub use parents::add_parents;
pub use store::Store;
pub use stored::{New, Stored};
