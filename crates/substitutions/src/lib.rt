// Substitutions on terms, literals and clauses; subterms by their paths; and the laws of both.
// `subst.rt` puts terms in for variables, `paths.rt` finds a subterm by the numbers of arguments that lead to it and
// replaces it, `sameness.rt` tells whether terms, literals and clauses are the same, `occurring.rt` whether a term has
// a variable.
// `laws.rt` states what holds in every interpretation: an instance has the value, and the truth, that the term or
// clause has under the changed assignment; a term keeps its value where a subterm gets another of its value; a clause
// says the same with its variables numbered anew. Every inference rests on these laws.
// Its lemmas (`proofs/Composing`, `Truth`, `Numbering`, `Interleaving`, `Variants`, `Replacing`) are for all crates
// above.
#![tactic(auto)]

mod laws;
mod occurring;
mod paths;
mod sameness;
mod subst;

pub use laws::{
    clauses_are_decided, clauses_are_renamed_apart, instances_have_truth, numbering_keeps_truth,
    replacing_keeps_values, worked,
};
pub use occurring::has_variable;
pub use paths::{part, replace_at, subterm_at};
pub use sameness::{same, same_clause, same_literal};
pub use subst::{Subst, apply, apply_clause, apply_literal};
