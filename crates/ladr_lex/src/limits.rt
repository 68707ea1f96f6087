// The limits of the language, each by its name.

/// The most bytes that an input may have.
pub const MOST_BYTES: u64 = 16_777_216;

/// The most levels that a term of an item may have, and the most parentheses that may be open at once in its tokens.
pub const MOST_LEVELS: u16 = 900;

/// The most symbols that a problem may have.
pub const MOST_SYMBOLS: usize = 1_000_000;

/// The most arguments that a symbol may have.
pub const MOST_ARGUMENTS: usize = 1_000;

/// The greatest element that a numeral may name.
pub const MOST_ELEMENT: u32 = 999_999_999;

/// The most names that an item of a list of names may have, which are to differ.
pub const MOST_NAMES: usize = 200;
