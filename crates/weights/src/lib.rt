// What clauses weigh, by rules and hints.
// `patterns.rt` weighs terms by rules: each term in a term is weighed once, from below, and its weight put behind those
// before it. A variable of a pattern weighs what stands in the list at the place of its term, which `parts.rt` finds by
// walking the term (`specs/Parts` has the order). The list has room that was reserved (`room.rt`), so that weighing and
// hints take no memory. Where there are no rules, symbols and variables are counted, and nothing is remembered.
// `hints.rt` makes clauses of hints, and finds the first that a clause matches. Each hint stands in a row for each of
// its literals, by its sign, its symbol and the symbol of its first argument (`hint_index.rt`, `specs/HintIndex`); a
// clause is compared with the hints in one row alone, the shortest in which one of its literals is looked up, and with
// all of them only where it has no literals.
// `rules.rt` has the rules of a problem (one whose head is no symbol of the problem is left out) with its hints, and
// what a clause weighs by both. `laws.rt` has the laws.
#![tactic(auto)]

mod hint_index;
mod hints;
mod laws;
mod parts;
mod patterns;
mod room;
mod rules;

pub use hints::Hints;
pub use laws::{symbols_weigh, weights_follow, worked};
pub use patterns::{MOST_WEIGHT, PatternWeight};
pub use room::Room;
pub use rules::Rules;
