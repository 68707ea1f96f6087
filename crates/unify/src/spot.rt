// Terms of a bank in contexts, and what is known of them.
use term_bank::TermId;

/// A term in a context: its variables stand for those whose numbers are greater by the context.
#[derive(Clone, Copy)]
pub struct Spot {
    pub term: TermId,
    pub context: u64,
}

/// A term that is bound to a variable.
#[derive(Clone, Copy)]
pub struct Bound {
    pub variable: u64,
    pub to: Spot,
}

/// Two applications or elements that have to be the same.
#[derive(Clone, Copy)]
pub struct Link {
    pub from: Spot,
    pub to: Spot,
}

/// What a node was built as.
#[derive(Clone, Copy)]
pub struct Image {
    pub spot: Spot,
    pub term: TermId,
}

/// What is bound, and what is kept while terms are made the same.
#[derive(Drop)]
pub struct Workspace {
    pub bound: Vec<Bound>,
    // Each from the one that stands for a class so far to the one that stands for both.
    pub links: Vec<Link>,
    // What a term leads to.
    pub reached: Vec<Spot>,
    // The parts of a term whose variables are not to be bound.
    pub kept: Vec<Spot>,
}
