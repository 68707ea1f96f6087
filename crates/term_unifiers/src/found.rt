// What is found of nodes that have to be the same.
use crate::node::Arena;
use crate::work::Work;
use clause_limits::Measure;

/// Classes of nodes, an order of them in which each stands behind those of its schema's arguments,
/// and by node how great the term of its class is.
#[derive(Drop)]
pub struct Found {
    pub arena: Arena,
    pub work: Work,
    pub order: Vec<usize>,
    pub measures: Vec<Measure>,
}
