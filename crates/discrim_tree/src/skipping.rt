// Terms that are to be skipped.

/// A node, and how many terms are to be skipped from there.
#[derive(Clone, Copy)]
pub struct Skipping {
    pub node: usize,
    pub count: usize,
}
