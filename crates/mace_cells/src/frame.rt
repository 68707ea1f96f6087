// The choices of a search.

/// A cell, the value being tried in it, and the greatest that is to be tried.
#[derive(Clone, Copy, Drop)]
pub struct Frame {
    pub cell: u32,
    pub value: u8,
    pub most: u8,
}
