// Lines of a proof.
ghost use Rattle.std.specs.Prelude.{◌≡◌, [], None};

use crate::words::{First, Later};
use answers::Answer;
use fol_core::{Clause, Formula, RawSub};
use std::alloc::Global;

/// A line's formula with its label, or its clause.
#[derive(Drop)]
pub enum Content {
    Formula(Formula, Option<RawSub>),
    Clause(Clause),
}

/// How a line is come by: the first word and the steps behind it.
#[derive(Drop)]
pub struct Just {
    pub first: First,
    pub steps: Vec<Later>,
}

/// What stands behind a line's content: what a goal asks for, by the places of the variables in front of its formula, if it has
/// an attribute for that (none of them if it can't be asked for), and the answers of a clause.
#[derive(Drop)]
pub struct LineNotes {
    pub asks: Option<Vec<u64>>,
    pub answers: Vec<Answer>,
}

/// A line of a proof.
#[derive(Drop)]
pub struct Line {
    pub number: u64,
    pub content: Content,
    pub just: Just,
    pub notes: LineNotes,
}

impl LineNotes {
    /// Nothing.
    pub fn none(alloc: Global) -> LineNotes
        ensures asks { result.asks ≡ None }
        ensures answers { result.answers.items ≡ [] }
    {
        LineNotes {
            asks: None,
            answers: Vec::new(alloc),
        }
    }
}

/// The lines of a proof, in their order.
#[derive(Drop)]
pub struct Derivation {
    pub lines: Vec<Line>,
}
