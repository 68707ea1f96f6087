// Clauses that a search holds and lines that it made, equations, and the order of terms that is chosen.
// `held.rt` has `Held`, a clause under the number of its line; contracts see it as the definitions of `prover_steps`
// do. Its copies share the clause, and so does its line (`made.rt`), with the words by which it was made.
// `equations.rt` has the sides of rules, and tells equations of one term with itself.
// `path_order.rt` compares terms by the path order, where the heads decide, and with one head the first arguments that
// differ (`specs/Fronts`, `specs/Ranks`), and `weight_order.rt` by weight, both as the terms stand and with no memory.
// `order.rt` takes the order that is chosen, unless less tells: no term is greater than itself or than one with a
// variable that it hasn't, no variable is greater than anything, and an application is greater than the variables that
// it has.
// Its lemmas on the literals of a clause, one after the other, are for the crates above.
#![tactic(auto)]

mod equations;
mod held;
mod made;
mod order;
mod path_order;
mod weight_order;

pub use equations::{has_same_sides, is_unit, rule_left, rule_right};
pub use held::Held;
pub use made::MadeLine;
pub use order::is_greater;
