// How two terms compare.

/// Which of two terms is greater, if they aren't the same.
#[derive(Clone, Copy)]
pub enum Compared {
    Greater,
    Less,
    Same,
    NotComparable,
}
