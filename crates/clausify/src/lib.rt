// The clauses of a problem, and the witnesses that its Skolem symbols are.
// `problem.rt` has the one call, `clauses_of`. It looks at the limit first (`limit.rt`, by the counts of `counts.rt`,
// so that nothing of a greater size is made), makes the negation normal form of each formula once (`normal.rt`), counts
// in these the arguments of all Skolem symbols (`arity.rt`), names and enters these symbols (`names.rt`, which keeps
// the names of the input in a set, `skolem.rt`), makes the clauses of each form with Skolem terms put in (`inputs.rt`,
// `clausal.rt`; `substitution.rt` finds the term for a variable by a map) and with the answers that are asked for
// (`asking.rt` has the variables), and notes symbols and numerals (`seen.rt`).
// Calls go down a formula, so they are as deep as it is, and its free variables are gone through in loops.
// `specs/` defines the clauses of what a file states: `Forms` the negation normal form, `Fronts` that with the
// quantifiers of free variables in front, `Skolem` what stands for existential variables and what each symbol is to
// pick, `Clausal` the clauses, `Names` the names of Skolem symbols, `Input` all of it for the formulas of a file in
// order, `Asked` the answers that the clauses of goals have, `AskedForms` the same of the forms that the code keeps.
// `laws.rt` has the laws that clauses and formulas say the same in every interpretation and that Skolem symbols are in
// order, and formulas worked out.
#![tactic(auto)]

mod arity;
mod asking;
mod clausal;
mod counts;
mod error;
mod inputs;
mod laws;
mod limit;
mod names;
mod normal;
mod problem;
mod seen;
mod skolem;
mod substitution;

pub use error::ClauseError;
pub use laws::{
    axioms_are_in_order, clauses_follow, clauses_suffice, own_table, skolems_stand_behind, worked,
};
pub use problem::clauses_of;
