// Texts of terms, formulas and clauses with the fewest parentheses, which read back as the same trees.
// `raw.rt` adds the text of a term as read to what is written already, with calls that go down the term.
// `precedences.rt` tells whether an argument fits without parentheses, and `spacing.rt` puts a space between two texts
// that would run together. `terms.rt` and `formulas.rt` make the term as read that a term or a formula is printed as,
// and print that; `clauses.rt` prints the literals of a clause one behind the other, so that many of them take no
// stack.
// `specs/` defines the text as a function of the term: `Precedences` the precedence of a term as it is printed,
// `Spacing` which texts run together, `RawText` the text, `TermText` and `FormulaText` the term as read that a term or
// a formula is printed as, `ClauseText` the text of a clause. `ReadsAs` has what it is for a text to read as a term, by
// the tokens that cut it, and `StatesAs` and `StatesClause` what it is for a text to state a formula and a clause.
// `laws.rt` states that what is printed reads back, and has texts worked out. `proof_print` prints by this crate, and
// `ladr_models` has laws of its texts; `term_text` is called by tests alone.
#![tactic(auto)]

mod clauses;
mod formulas;
mod laws;
mod precedences;
mod raw;
mod spacing;
mod terms;

pub use clauses::{clause_in_front, clause_text};
pub use formulas::formula_text;
pub use laws::{
    clauses_have_texts, printed_clause_states_again, printed_reads_again, printed_reads_back,
    printed_states_again, terms_have_texts, worked, worked_declared, worked_formulas,
};
pub use raw::raw_text;
pub use terms::term_text;
