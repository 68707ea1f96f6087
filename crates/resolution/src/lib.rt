// Conclusions by resolution: of two clauses, of a nucleus with its satellites, of a nucleus with units; and factors.
// What a rule comes to on clauses that are lent to it is told by `inference`. A conclusion has its clause built and
// numbered, or, exactly where it is too large, as one that isn't built (`conclusion.rt`); both mean the numbered clause.
// Its word is made behind it, so that a try of which nothing comes makes none. Before that, `meeting.rt` looks whether
// two literals may clash or be merged at all, by their signs and by what `discrim_tree` tells of their atoms, without
// memory; it says no only where nothing makes them so.
// `opposing.rt` finds the clauses that have a literal to clash with a clause, and so the nuclei for which the given
// clause may be a satellite: all others give nothing (`proofs/Unopposed`, `Idle`). `binary.rt` and `factoring.rt` go
// through the places of literals. `partners.rt` lists, for a place of a nucleus, the literals that may clash there;
// `clashing.rt` takes one for each place in turn, and goes on only where the atoms so far have a unifier and the given
// clause takes part or still may; `nuclei.rt` does so for hyperresolution and for resolution with units. Conclusions of
// each rule come in their order.
// `specs/Meeting` says which literals never clash or merge, `specs/Ways` what comes of ways to take partners, and which
// lists of partners stand for others: what those left out give is nothing. `proofs/Failing`: literals that never clash
// leave no conclusion, and where nothing is concluded with the first satellites nothing is with all. `proofs/Judgements`:
// what `inference` makes of a rule is what comes of its word.
#![tactic(auto)]

mod binary;
mod clashing;
mod conclusion;
mod factoring;
mod meeting;
mod nuclei;
mod opposing;
mod partners;

pub use binary::{add_resolvent, add_resolvents};
pub use conclusion::{Concluded, Conclusion};
pub use factoring::add_factors;
pub use nuclei::{add_hyperresolvents, add_unit_resolvents};
