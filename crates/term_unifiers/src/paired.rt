// Nodes of terms that are to be made the same, before room is taken for that.
use crate::node::Arena;

/// Nodes with pairs of them, each and each.
#[derive(Drop)]
pub struct Paired {
    pub arena: Arena,
    pub lefts: Vec<usize>,
    pub rights: Vec<usize>,
}
