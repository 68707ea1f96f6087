// From terms as they are read to formulas and clauses.
// `formulas.rt` makes a formula of a term and a table of symbols; the term's parts are taken one behind the other and
// given back meanwhile (`waiting.rt`), unless they are few names alone, read as they stand. An atom with one argument
// has a way of its own; `arguments.rt` reads the terms of a pattern, which stands in no formula; `clauses.rt` makes a
// clause of disjuncts, with one numbering of variables. `reader.rt` keeps what it has met, `numbering.rt` and
// `scopes.rt` variables. `counting.rt` tells without making a formula, which may have millions of arguments, whether an
// arity is too large or symbols too many; it goes no further once that is known, which is in no clause.
// `specs/Formulas` follows the reading step by step. Above it stand four laws that know of no step, which
// `read_formula`, `clause_of` and `terms_of` name (`ordered` and `arity`, `numbered`, `least`, `means` and `unmet`) and
// `laws.rt` states of every formula that is read: `specs/Occurring` and `VariablesMet` list the symbols and variables
// of a term, in the order in which the reading has them, with an arity that is too large exactly where one of the
// symbols has such a one; `specs/Means` says which formula a term means by them, one at most: that is read, and a row
// of misuse is met exactly where there is none; `specs/Broken` lists the rows that a term breaks, of which the least is
// told.
// `laws.rt` also has what holds behind a larger table and in the prover's mode; `examples.rt` has examples worked out.
#![tactic(auto)]

mod arguments;
mod clauses;
mod connectives;
mod counting;
mod examples;
mod formulas;
mod laws;
mod numbering;
mod reader;
mod scopes;
mod styles;
mod waiting;

pub use arguments::{TermsRead, terms_of};
pub use clauses::{ClauseRead, clause_of, clause_with_terms};
pub use counting::{brings_too_many, has_large_arity};
pub use examples::{
    worked_counts, worked_formulas, worked_meanings, worked_refusals, worked_symbols,
    worked_variables,
};
pub use formulas::{FormulaRead, is_too_great, read_formula};
pub use laws::{
    larger_tables, one_meaning, prover_names_no_element, quoted_names, readings_mean, terms_mean,
};
pub use numbering::Variables;
pub use reader::is_free_name;
pub use styles::{Mode, Style, style_of};
