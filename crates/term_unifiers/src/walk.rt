// What is kept on a walk over classes.

/// A class that wasn't looked at yet, one that is on the way, or one that stands in the order.
#[derive(Clone, Copy)]
pub enum Mark {
    New,
    Open,
    Done,
}

/// A class on the way, and which of its schema's arguments is next.
#[derive(Clone, Copy)]
pub struct Frame {
    pub root: usize,
    pub next: usize,
}

/// The order so far, a mark for each node, and the classes on the way, the innermost last.
#[derive(Drop)]
pub struct Walk {
    pub marks: Vec<Mark>,
    pub order: Vec<usize>,
    pub frames: Vec<Frame>,
}
