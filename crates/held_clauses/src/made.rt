// A line that a search made.
use derivation::Just;
use fol_core::Clause;
use std::rc::Rc;

/// A line that a search made: its number, its clause, which those share who hold it, and its words.
#[derive(Drop)]
pub struct MadeLine {
    pub number: u64,
    pub clause: Rc<Clause>,
    pub just: Box<Just>,
}
