// Lines that state a formula of the problem, with what it asks for, and lines that have an input clause, with its answers.
// `saying.rt` looks for the formula of a line among those of the problem, `rows.rt` for a line's clause among the input clauses
// of another line's formula. `sameness.rt` compares formulas, `comparing.rt` clauses with answers, but for the numbers of
// variables; only where sizes are the same, and answers only where there are some. `specs/Held` says what the code holds as `answered_lines` has it.
#![tactic(auto)]

mod comparing;
mod rows;
mod sameness;
mod saying;

pub use comparing::{is_clause, is_clause_with, same_answers};
pub use rows::is_clause_of;
pub use saying::is_stated;
