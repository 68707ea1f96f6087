// Where a side of an equation is put in for a term of a literal.
use fol_core::Term;
use held_clauses::Held;

/// The clause, literal and side of the equation, with that side, and the clause and literal of the term.
#[derive(Drop)]
pub struct Site<'a> {
    pub from: &'a Held,
    pub equation: u64,
    pub side: u64,
    pub term: &'a Term,
    pub into: &'a Held,
    pub literal: u64,
}
