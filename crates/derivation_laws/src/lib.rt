// Laws of derivations from a problem's clauses; there is no code in it.
// Numbers of symbols: a refutation stays one where symbols exchange their numbers, and so behind any table of the
// problem's symbols that takes in the others in another order, with the problem's clauses there. `specs/Moved` says
// what terms, clauses, formulas and lines are with other numbers of their symbols, `specs/Tables` when one table has
// the symbols of another. In `proofs/`, `MovedTerms`, `MovedRules` and `MovedLines` go through all that a line may be,
// `MovedRows` through the clauses of formulas, and `Exchanges` finds the exchange that leads from one table to another,
// symbol by symbol.
// Elements and symbols: the clauses of a derivation's lines are in each signature that its input clauses are in, and the
// terms that its lines put in, and so name no element where those name none. `specs/Signatures` says which elements, functions and relations a clause may
// have, `specs/Elements` has the case of one element that no input clause names. `Erased` puts a variable in place of
// each part that a signature lacks, which leaves clauses of the signature as they are, `Rules` shows by that that each
// rule keeps a signature, and `Lines` goes through all that a line may be.
// What it shows: `no_countermodel` states that where there is a refutation of a problem, no interpretation, finite or
// infinite, that has the elements which its lines name and whose Skolem symbols pick witnesses makes each assumption
// true and each goal false (`specs/Countermodels`, `proofs/Leaving`).
#![tactic(auto)]

mod laws;

pub use laws::{
    lines_name_no_elements, lines_stay_in, no_countermodel, refutations_are_moved,
    refutations_are_read, refuted_have_none,
};
