// Clauses and rules that are held, found through indexes of terms.
// `lists.rt` finds places in a list of clauses whose numbers rise, by halves, and of several numbers by longer and
// longer steps. `rules.rt` has `RewriteRules`: such a list, which contracts see, and an index of the left sides, whose least
// number that generalizes a term is the first rule that fits. With them stand up to 512 small terms that no rule fits
// in (`normal_terms.rt`), each in a slot by a number made of it; that none has a step is an invariant (`specs/Normal`):
// a rule that comes makes them forgotten, one that goes doesn't (`proofs/Fewer`).
// `listed.rt` has `Listed`: a list, and for each sign an index of the atoms of units (a clause without literals stands
// in both, under a variable). `finder.rt` has sieves of numbers of clauses: of two literals or more under positive and
// negative atoms; of all under terms below atoms that are no variables, if kept, and under sides of positive equations:
// whatever test of terms a clause passes, its number stands under a term that does (`specs/Filing`). A fifth has
// clauses of two literals or more under marks: for each symbol a number of it, the literal's sign, and the symbols and
// argument numbers on the way (`marks.rt`). What subsumes a clause has no marks besides the clause's
// (`proofs/Marking`). Where too many nodes would be met, literals find them (`proofs/General`, `Firsts`): those that a
// longer clause may subsume by the instances of its first.
// `held_set.rt` has `HeldSet`, for the clauses that wait and those in use: it finds numbers (or takes all, where terms
// below atoms are sought and not kept), and `parts.rt` confirms them, so the answer is those of the list that pass, in
// order (`proofs/Candidates`). Callers may test themselves: of `long_above` and `near_below` those that pass are those
// of the set that do; `add_near_inside` and `add_near_side` leave none out (`AddsAll`). `short.rt` tells clauses of one
// literal at most, `numbered.rt` takes the clauses of numbers. Where there is no room, lists and indexes stay as they
// were; in a sieve numbers may stay behind, which nothing confirms.
#![tactic(auto)]

mod finder;
mod held_set;
mod listed;
mod lists;
mod marks;
mod normal_terms;
mod numbered;
mod parts;
mod rules;
mod short;

pub use held_set::{HeldSet, HeldSets};
pub use normal_terms::NormalTerms;
pub use numbered::{add_numbers, all_numbered};
pub use rules::RewriteRules;
pub use short::is_short;
