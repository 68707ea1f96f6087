// Clauses on shared terms, however large they are: each term stands once, in a bank, so that equal ones have one number, and a
// term of 2^60 symbols may take sixty places.
// `shared.rt` has `SharedClause`: literals whose atoms have numbers in a bank; it is made of a plain clause, of an instance or a
// conclusion that isn't built (`making.rt`), measured, and built as a plain clause. `following.rt` makes it a clause whose later
// words are being followed: those of `inference` run on it, and none is too large for it. `using.rt` puts literals behind it as a
// match makes them of others. `nodes.rt` looks at terms of a bank,
// `matching.rt` finds what makes one of a general term, `putting.rt` puts in what was found, and `paths.rt` goes along a path
// and puts another term there. Nothing goes down by the levels of a shared term: what recurses does so on terms that were read.
// A conclusion's variables get other numbers on the way: what it becomes is its variant.
#![tactic(auto)]

mod following;
mod laws;
mod making;
mod matching;
mod nodes;
mod paths;
mod putting;
mod shared;
mod using;

pub use laws::worked;
pub use shared::{SharedClause, SharedLiteral};
