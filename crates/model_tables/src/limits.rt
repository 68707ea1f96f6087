// The limit on cells.

/// The most cells, with the ground literals where there are any, that are searched at a size.
pub const MOST_CELLS: u64 = 50_000_000;
