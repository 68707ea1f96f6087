// How large clauses may be.

/// How many levels a clause may have.
pub const MOST_CLAUSE_LEVELS: u64 = 1000;

/// How many symbols and variables it may have.
pub const MOST_CLAUSE_SYMBOLS: u64 = 1_000_000;
