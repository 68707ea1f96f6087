// What is told of a generated problem.
use ladr_check::Checked;

/// What became of the search for proofs of a problem: its status, how many clauses were given and kept, how many lines and levels its
/// first proof has, and what a check answered of its proofs, if there are some.
#[derive(Clone, Copy)]
pub struct Proved {
    pub status: u8,
    pub given: u64,
    pub kept: u64,
    pub length: u64,
    pub level: u64,
    pub checked: Option<Checked>,
}

/// What became of the search for a model: its status, and the size of the model, or 0.
#[derive(Clone, Copy)]
pub struct Modelled {
    pub status: u8,
    pub size: u64,
}
