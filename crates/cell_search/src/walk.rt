// Ways through the instances of clauses.
use fol_core::{Kind, Sym, Terms};

/// A way through instances of a clause: all of them, or those in which a symbol's terms have the values of a cell's arguments.
#[derive(Drop)]
pub struct Walk<'a> {
    pub clause: usize,
    pub occurrence: Option<Occurrence<'a>>,
    /// The variables that get each element in turn; those of the occurrence come first.
    pub order: Vec<usize>,
    /// How many of these variables the occurrence has.
    pub nested: usize,
}

/// A symbol with its arguments in a clause. A variable that is itself an argument has its number here, and the number of cells
/// from one of its elements to the next.
#[derive(Drop)]
pub struct Occurrence<'a> {
    pub kind: Kind,
    pub symbol: Sym,
    pub terms: &'a Terms,
    pub direct: Vec<(usize, u32)>,
}

/// The occurrences of a symbol, whose cells begin with this one.
#[derive(Drop)]
pub struct Group<'a> {
    pub first: u32,
    pub walks: Vec<Walk<'a>>,
}
