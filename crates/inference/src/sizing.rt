// A rule put into a clause that may not become too large: all is measured before it is built.
ghost use Rattle.std.specs.Prelude.{ℕ, ◌≡◌, IfOk, List, false, true};
ghost use Rattle.clause_limits.specs.Sizes.{is_too_large, measured};
ghost use Rattle.fol_core.specs.Substitutions.{substitute};
ghost use Rattle.fol_core.specs.TermView.{tree_of};
ghost use Rattle.inference.specs.Followed.{IsPutIn, with_part};
ghost use Rattle.inference.specs.Measured.{clause_measured};
ghost use Rattle.substitutions.specs.Bindings.{by_bindings};
ghost use Rattle.substitutions.specs.Paths.{replaced};

use crate::measuring::is_beyond;
use clause_limits::{MOST_CLAUSE_LEVELS, Measure, left_behind_clause};
use fol_core::{Clause, Term};
use std::alloc::{AllocError, Global};
use term_matches::Matches;

// How large a term is with an instance of another one at a path; where the path isn't there, as it is.
fn measure_put(found: &Matches, right: &Term, term: &Term, path: &[u64]) -> Measure
    ensures { result ≡ measured (replaced (tree_of term.now) path.now
        (substitute (by_bindings found.now.bindings) (tree_of right.now))) }
{
    let Some((number, rest)) = path.split_first() else {
        return found.measure(right);
    };
    match term {
        Term::Var(_) => Measure::of(term),
        Term::Elem(_) => Measure::of(term),
        Term::App(_, terms) => {
            let mut parts = Measure::none();
            for (i, part) in terms.items.iter().enumerate() {
                let place = i as u64 + 1;
                let measure = if place == *number {
                    measure_put(found, right, part, rest)
                } else {
                    Measure::of(part)
                };
                parts = parts.beside(measure);
            }
            parts.under_symbol()
        }
    }
}

// The same of a clause, at a path of the literal at a place.
fn measure_with(
    found: &Matches,
    right: &Term,
    clause: &Clause,
    place: usize,
    path: &[u64],
) -> Measure
    ensures { result ≡ clause_measured (with_part clause.now place path.now
        (substitute (by_bindings found.now.bindings) (tree_of right.now))) }
{
    let mut all = Measure::none();
    for (i, literal) in clause.literals.iter().enumerate() {
        let measure = if i == place {
            measure_put(found, right, &literal.atom, path)
        } else {
            Measure::of(&literal.atom)
        };
        all = all.beside(measure);
    }
    all
}

// Whether a clause has so few symbols that they can't become too many by an instance that is put in: there were no more of them
// than a clause may have levels, and so no more levels either.
fn is_small_at_once(found: &Matches, right: &Term, clause: &Clause) -> bool
    ensures { (a : ℕ) (path : List ℕ) → result ≡ true → is_too_large (with_part clause.now a path
        (substitute (by_bindings found.now.bindings) (tree_of right.now))) ≡ false }
{
    match left_behind_clause(clause, MOST_CLAUSE_LEVELS) {
        Some(left) => found.measure(right).size <= left,
        None => false,
    }
}

/// The instance of a rule's right side that is put in at a path of a literal, if the clause doesn't become too large for a search.
pub fn put_small(
    alloc: Global,
    clause: &Clause,
    place: usize,
    path: &[u64],
    found: Matches<'_>,
    right: &Term,
) -> Result<Option<Term>, AllocError>
    ensures { IfOk result (IsPutIn clause.now place path.now
        (substitute (by_bindings found.entry.bindings) (tree_of right.now))) }
{
    if !is_small_at_once(&found, right, clause) {
        if is_beyond(measure_with(&found, right, clause, place, path)) {
            return Ok(None);
        }
    }
    Ok(Some(found.apply(alloc, right)?))
}
