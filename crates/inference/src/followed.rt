// What a later word comes to.

/// A literal, path or side isn't there or isn't taken; what has to be equal isn't; the clause that it leads to is larger than this
/// form of a clause holds; or the clause is now that one. In all but the last case the clause is as it was.
#[derive(Clone, Copy)]
pub enum Followed {
    Misplaced,
    Differs,
    TooLarge,
    Done,
}
