// How a search for proofs is set up: what guides it, and where it begins.
// `specs/SearchInputs` says what a search is made of, and which setting and first state that gives: the rules in force
// by all input clauses, the order of terms by the listed names with the Skolem symbols, the rules of weights and the
// hints. `guiding.rt` and `starting.rt` make them.
#![tactic(auto)]

mod guiding;
mod starting;

pub use guiding::guide_of;
pub use starting::start_search;
