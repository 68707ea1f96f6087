// First-order logic: symbols, trees of terms and formulas, interpretations and truth.
// `symbols.rt` numbers symbols by their first occurrence, in one table: each slot leads to its last symbol, and each
// symbol to the one before it in its slot (`specs/SymbolSlots`). `term.rt` and `formula.rt` have the trees that all
// layers share, `sides.rt` the two sides of an equation, `raw.rt` the trees that the reader makes of tokens before
// symbols and variables are told apart.
// `free.rt` has free variables and the closure, `clause.rt` literals, clauses and Skolem entries, `numbering.rt`
// clauses with their variables numbered anew. `name.rt` has names, `name_order.rt` names in an order, each once, and
// `weights.rt` rules of weights and the weights of names for KBO. `occurs.rt` marks the symbols of a formula and finds
// what lies above the elements that it names.
// `interpretation.rt` has the trait `Interpretation`: it has a meaning that contracts see, and no call that a program
// could make. `specs/Meaning` and `specs/Truth` are the definitions of truth, and `laws.rt` has what holds of it in
// every interpretation. `specs/Sizes` says how many symbols and levels a term has.
// Above, all rests on what truth is, on what a closure is, and on the numbers of symbols.
#![tactic(auto)]

mod clause;
mod formula;
mod free;
mod interpretation;
mod laws;
mod name;
mod name_order;
mod numbering;
mod occurs;
mod raw;
mod sides;
mod symbols;
mod term;
mod weights;

pub use clause::{Clause, Clauses, EQ, Entry, Literal};
pub use formula::{Formula, Shape, Sub};
pub use free::{closure, free_vars};
pub use interpretation::Interpretation;
pub use laws::{closure_is_general, free_variables_decide, truth_is_stable, values_are_within};
pub use name::{Name, Names};
pub use name_order::NameOrder;
pub use numbering::renumber;
pub use occurs::{above_numerals, mark_symbols};
pub use raw::{Quantifier, Raw, RawSub, Raws};
pub use sides::Sides;
pub use symbols::{Clash, Kind, Sym, Symbols};
pub use term::{Term, Terms};
pub use weights::{KboWeight, KboWeights, Weight, WeightRule, WeightSub};
