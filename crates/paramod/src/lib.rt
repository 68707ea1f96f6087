// Conclusions by equations: paramodulation from and into a given clause, and resolution with reflexivity.
// `partners.rt` finds the clauses with a term that a side of the given clause may replace, and those with a side that
// may replace a term of it; all others give nothing (`specs/Partners`, `proofs/Unpaired`). It takes what the index
// finds unconfirmed: a clause too many gives nothing either, which shows as its places are tried.
// `pairs.rt` goes through equations, sides and literals, `adding.rt` through the terms of a literal with their paths,
// and `sides.rt` tells which sides may replace and which terms may be replaced. `reflexivity.rt` resolves inequations
// with reflexivity. `specs/Sites` has what comes of one place (`site.rt`). The conclusions come in their order.
#![tactic(auto)]

mod adding;
mod pairs;
mod partners;
mod reflexivity;
mod sides;
mod site;

pub use pairs::add_paramodulants;
pub use reflexivity::add_reflexive_resolvents;
pub use sides::is_oriented;
