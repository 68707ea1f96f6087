// What a bank keeps of a term.
use crate::id::TermId;
use smallvec::SmallVec;

/// A term by its head and the numbers of its arguments.
#[derive(PartialEq, Eq, Hash, Drop)]
pub enum TermCell {
    Variable(u64),
    Element(u32),
    Application(u64, SmallVec<TermId, 3>),
}

/// How many symbols and variables a term has, up to the greatest number, and how many levels.
#[derive(Clone, Copy)]
pub struct Measures {
    pub size: u64,
    pub depth: u64,
}
