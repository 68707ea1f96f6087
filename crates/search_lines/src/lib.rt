// What a search's lines keep to: laws of the lines that a search for proofs makes, and of what a file asks of it. No
// code.
// Any search: each line that it makes is fit to be printed whatever its numbers (`specs/Shapes`): a clause with its
// variables numbered by first occurrence and at most 1,000 levels, and words of which each nucleus has a satellite,
// each path a number, and none stands behind a first word that takes none. A search begins with such lines and makes
// such ones alone: in `proofs/`, `Conclusions` has first words, `Words` those of rewriting and of putting in order,
// `Search` the steps.
// What a file asks (`specs/Fitness`): its demodulators are demodulators and each of its weights for KBO is at least 1,
// the clauses of such formulas are rows of them, as a search asks for, and both orders of terms keep variables,
// whatever names are listed. `Files` goes through a file, item by item, `Demodulators` shows that the clause of one is
// a rule, `Formulas` has the clauses of formulas, `Weights` the orders.
// The clauses of a file (`specs/Rows`): each that its formulas are made into can be a line of a printed proof: over the
// file's symbols with its Skolem symbols, of their kinds and with their arguments, such as clauses of the problem may
// have, numbered, and with atoms of at most 1,000 levels, which aren't too deep for a line. `Read`: symbols of a
// formula stand in the table as they are used; `Levels` and `Counts` count levels and variables; `Atoms` and `Shapes`
// lead from a formula to its clauses; `Skolems` has the Skolem symbols; `FileRows` puts it together.
#![tactic(auto)]

mod laws;

pub use laws::{
    files_are_fit, fit_rows_are_lines, lines_are_fit, orders_of_files_keep_variables,
    rows_are_of_formulas, rows_of_files_are_fit, shallow_clauses_are_lines,
};
