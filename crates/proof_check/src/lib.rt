// The checker of proofs: whether lines are a refutation, and where not, the first bad line and why. The rules are those
// of `derivation`.
// `checking.rt` has `check`, which goes from line to line. `line.rt` judges one: a formula or a clause of one by
// `stated_lines`, an instance by `instancing.rt`, all else by `inferring.rt`, which finds the parents (`earlier.rt`) and
// hands them to `inference`: what a first word comes to is found there, and what the words behind it make of its clause, by
// the functions that the search calls too.
// Answers come last: only where an instance or an inferred line is one without them, `answering.rt` asks whether its answers
// are its own. A line whose parents have none has none; else `carried_answers` makes its clause once more, with them.
// A conclusion or an instance that is too large for a search isn't built: with no word behind it, it is compared with the line's
// clause by size and levels first; else it goes on shared terms (`shared_clauses`), as does a clause that words make too large,
// and is built only where it is as large as the line's clause and has no more levels (`sizes.rt`). So no clause on the way is too
// large, and want of memory is told only where an allocation was refused. Clauses are numbered for a comparison only where
// sizes are the same.
// `specs/Found` says what is found of a line, `Reached` how far lines are read.
#![tactic(auto)]

mod answering;
mod carrying;
mod checking;
mod earlier;
mod error;
mod inferring;
mod instancing;
mod line;
mod sizes;

pub use checking::check;
pub use error::CheckError;
