// Matches of terms, as code.
// `matches.rt` has `Matches`: terms for variables, each of them a part of a term that is lent, so that nothing is
// copied until `apply` makes a term, and up to eight of them take no allocation. `match_onto` takes none: `reserve`
// makes room for a binding for each place where a variable stands (`variables.rt`), and `match_all_onto` adds no more
// bindings than the other terms have symbols and variables. Bindings that were there stay in front, whatever a match
// finds, so `undo` goes back to a `mark` by leaving out those behind it.
#![tactic(auto)]

mod matches;
mod variables;

pub use matches::{Matches, is_instance};
pub use variables::occurrences;
