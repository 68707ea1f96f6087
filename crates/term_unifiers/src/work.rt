// What is kept while nodes are merged.

/// By node: one that it is linked to, and a schema, which is no variable where a node of the class
/// is none. And pairs of nodes that have to be merged, each and each.
#[derive(Drop)]
pub struct Work {
    pub links: Vec<usize>,
    pub schemas: Vec<usize>,
    pub lefts: Vec<usize>,
    pub rights: Vec<usize>,
}

/// The schema that two classes have together, or that their heads differ.
#[derive(Clone, Copy)]
pub enum Comparison {
    Clash,
    First,
    Second,
}
