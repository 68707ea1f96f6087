// Steps of rewriting, and what they lead to.
use derivation::Later;
use fol_core::{Clause, Term};
use held_clauses::Held;

/// A rule, the place of a term by the numbers of its arguments, and the term there.
#[derive(Drop)]
pub struct Step<'a> {
    pub rule: &'a Held,
    pub path: Vec<u64>,
    pub term: &'a Term,
}

/// A step of the literal at a place.
#[derive(Drop)]
pub struct PlacedStep<'a> {
    pub place: usize,
    pub step: Step<'a>,
}

/// The number of a rule, the places of a literal and of a term in it, and what is put in there.
#[derive(Drop)]
pub struct Taken {
    pub rule: u64,
    pub place: usize,
    pub path: Vec<u64>,
    pub part: Term,
}

/// A clause, and the words that led to it.
#[derive(Drop)]
pub struct Tidied {
    pub clause: Clause,
    pub words: Vec<Later>,
}
