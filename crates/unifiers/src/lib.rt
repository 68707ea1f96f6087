// Most general unifiers and matches of terms: the definitions that compute, and their laws.
// `specs/Unifier` has unifiers and Robinson's algorithm by the first difference, as a definition that computes;
// `specs/Matching` has matching. `laws.rt` states that what is found is most general, that nothing is passed over, and
// that a conclusion with its variables numbered depends neither on the unifier nor on how its parents were renamed
// apart. Its lemmas are for all crates above. No code here finds unifiers or matches: `term_unifiers` and `term_matches` do.
#![tactic(auto)]

mod laws;

pub use laws::{conclusions_agree, matches_are_found, unifiers_are_found, worked};
