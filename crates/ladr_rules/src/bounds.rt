// The bounds of rules, each by its name.

/// The greatest number in a rule of weights, and the greatest weight of a hint.
pub const MOST_WEIGHT: u32 = 2_147_483_647;

/// The greatest weight of a symbol for KBO.
pub const MOST_SYMBOL_WEIGHT: u32 = 65_535;
