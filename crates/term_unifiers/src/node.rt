// Nodes of terms.
use crate::naming::VariableNodes;

/// A variable, an element, or a symbol with the place and the number of its arguments. A variable is a number of 128 bits, as
/// those of several clauses renamed apart may be: the upper ones and the lower ones, so that it takes no more room than an
/// application.
#[derive(Clone, Copy)]
pub enum Node {
    Variable(u64, u64),
    Element(u32),
    Application(u64, usize, usize),
}

/// The same with the arguments' numbers.
#[derive(Clone, Copy)]
pub enum View<'a> {
    Variable(u128),
    Element(u32),
    Application(u64, &'a [usize]),
}

/// Terms by nodes: the arguments of a node stand before it, and each variable has one node.
#[derive(Drop)]
pub struct Arena {
    pub nodes: Vec<Node>,
    pub arguments: Vec<usize>,
    pub variables: VariableNodes,
}
