// Orders of terms: the lexicographic path order and the Knuth-Bendix order, for terms of a bank.
// `compared.rt` has how two terms compare. `precedence.rt` has the order of symbols, by a row for each: the place of
// its name among those that a file lists, its arity, its number, and what it weighs. `path.rt` works the path order out
// by the heads of two terms, so that each pair of their subterms is looked at once at most; by the letter of its
// definition that takes exponential time. `kbo.rt` has the order by weights, which counts variables and weighs terms by
// walking them, for terms of at most 1,000,000 symbols and variables. Neither takes memory.
// `specs/Lpo` and `specs/Kbo` define both by recursion on trees, and `laws.rt` states that they are irreflexive,
// transitive and kept by substitution. `prover_setup` has the rows made of a problem's symbols, with the Skolem
// symbols, and `held_clauses` compares terms by them.
#![tactic(auto)]

mod compared;
mod kbo;
mod laws;
mod path;
mod precedence;

pub use compared::Compared;
pub use laws::{kbo_is_order, lpo_is_order, symbols_are_ordered, tables_are_ordered, worked};
pub use precedence::{Precedence, SymbolRow};
