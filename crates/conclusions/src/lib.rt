// Which rules a search has, and all conclusions of a given clause.
// `rules.rt` tells which rules are in force, by the options and the input clauses; `concluding.rt` has
// `conclusions_of`, rule by rule, as `prover_steps` lists them.
#![tactic(auto)]

mod concluding;
mod rules;

pub use concluding::conclusions_of;
pub use rules::{RulesInForce, has_equation, rules_in_force};
