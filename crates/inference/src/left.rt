// What a rule leaves of its parents, all of it lent.
use fol_core::{Literal, Term};

/// A term of a parent that stands at a path of a literal, in place of the one there.
#[derive(Clone, Copy)]
pub struct Change<'a> {
    pub path: &'a [u64],
    pub parent: u64,
    pub term: &'a Term,
}

/// A literal of a parent, by the parent's place, perhaps with another term in it.
#[derive(Clone, Copy)]
pub struct Left<'a> {
    pub parent: u64,
    pub literal: &'a Literal,
    pub change: Option<Change<'a>>,
}
