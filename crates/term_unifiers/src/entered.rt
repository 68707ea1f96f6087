// Nodes of terms that are to be made the same.
use crate::node::Arena;
use crate::walk::Walk;
use crate::work::Work;

/// Nodes with pairs of them, each and each, before any are merged, and a walk over their classes that hasn't begun: what is
/// done with them takes no memory.
#[derive(Drop)]
pub struct Entered {
    pub arena: Arena,
    pub work: Work,
    pub walk: Walk,
}
