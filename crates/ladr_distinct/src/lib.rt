// Names that are to differ pairwise: how they are written, and the formula that says so.
// `bracketed.rt` reads names in square brackets, which are items of such a list, by one pass over their tokens, or tells the first bad
// one (`specs/Names`; `specs/NamesPass` has the pass).
// `formula.rt` makes the term that such a formula is read of: the denied equations of the names, joined by halves, so
// that it has few levels. `counting.rt` tells whether names bring too many symbols, without making anything of them.
// `specs/Formula` has the term, `specs/Different` what it means: `laws.rt` states that it holds exactly where the values of
// the names differ, and has terms worked out.
#![tactic(auto)]

mod bracketed;
mod counting;
mod formula;
mod laws;

pub use bracketed::read_names;
pub use counting::names_bring_too_many;
pub use formula::distinct_formula;
pub use laws::{
    distinct_means_different, one_list_of_names, worked, worked_names, worked_terms, worked_values,
};
