// Clauses rewritten by rules and put in order, and which clauses change others.
// `rewriting.rt` finds the first place at which a rule fits, arguments before the whole, with the term there (`step.rt`).
// The search for a step goes on where the last one stood, since what is left of that place is in normal form
// (`specs/Resumed`), and a term that is known to be in normal form isn't looked into. `normal.rt` takes the steps in
// turn, with the terms that the rules know, which it hands back with those that it noted: the kernel, `inference`,
// measures what the clause would be, and only where that isn't too large the new part is built, and exchanged for the
// old one at its place. Nothing else of the clause is copied.
// `ordering.rt` puts a clause in order in four passes over its literals, in place, by the kernel's words: each goes from
// one place to the next, and what is left of the pass comes to the same (`specs/Passes`). `tidying.rt` does both and
// numbers the variables. `fitting.rt` tells whether a rule fits in a clause and whether a unit denies a literal.
// The rule for a term and the units that may deny a literal come from the indexes of `clause_index`. Answered are the
// clause and its words, as the definitions of `prover_steps` say, and that it isn't too large.
#![tactic(auto)]

mod fitting;
mod normal;
mod ordering;
mod rewriting;
mod step;
mod tidying;

pub use fitting::{denies, rewrites_clause};
pub use normal::normal_form;
pub use ordering::put_in_order;
pub use step::Tidied;
pub use tidying::tidy;
