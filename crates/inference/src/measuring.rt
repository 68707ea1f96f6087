// How large what is left of parents is under a unifier, before any of it is built.
ghost use Rattle.std.specs.Prelude.{◌≡◌, ◌+◌, ℕ, true, false, IfSome, map};
ghost use Rattle.clause_limits.specs.Sizes.{is_too_large, measured};
ghost use Rattle.fol_core.specs.Literals.{ClauseTree};
ghost use Rattle.fol_core.specs.Substitutions.{substitute};
ghost use Rattle.fol_core.specs.TermView.{tree_of};
ghost use Rattle.inference.specs.Left.{changed, left_clause, left_literal, left_tree, symbols_lent};
ghost use Rattle.inference.specs.Measured.{clause_measured};
ghost use Rattle.substitutions.specs.Bindings.{by_bindings};
ghost use Rattle.term_unifiers.specs.Renamed.{own_among};

use crate::left::{Change, Left};
use clause_limits::{MOST_CLAUSE_LEVELS, MOST_CLAUSE_SYMBOLS, Measure, left_behind};
use fol_core::Term;
use term_unifiers::Solution;

// A term of one of so many parents with another one's at a path; where the path isn't there, the term itself.
fn measured_with(
    unifier: &Solution,
    many: u64,
    term: &Term,
    parent: u64,
    path: &[u64],
    change: &Change,
) -> Measure
    ensures { result ≡ measured (changed
        (own_among many (by_bindings unifier.now) parent) (tree_of term.now) path.now
        (substitute (own_among many (by_bindings unifier.now) change.now.parent)
        (tree_of change.now.term.now))) }
{
    let Some((number, rest)) = path.split_first() else {
        return unifier.measure(change.term, many, change.parent);
    };
    match term {
        Term::Var(_) => unifier.measure(term, many, parent),
        Term::Elem(_) => unifier.measure(term, many, parent),
        Term::App(_, terms) => {
            let mut parts = Measure::none();
            for (i, part) in terms.items.iter().enumerate() {
                let place = i as u64 + 1;
                let measure = if place == *number {
                    measured_with(unifier, many, part, parent, rest, change)
                } else {
                    unifier.measure(part, many, parent)
                };
                parts = parts.beside(measure);
            }
            parts.under_symbol()
        }
    }
}

/// How large the atom of a literal is that is left.
pub fn measure_left(unifier: &Solution, many: u64, left: &Left) -> Measure
    ensures { result ≡ measured (left_literal
        (own_among many (by_bindings unifier.now)) (left_tree left.now)).atom }
{
    let atom = &left.literal.atom;
    match &left.change {
        None => unifier.measure(atom, many, left.parent),
        Some(change) => measured_with(unifier, many, atom, left.parent, change.path, change),
    }
}

// One more than the symbols and variables of all literals and terms that are lent, if there are so few.
fn few_symbols(left: &[Left]) -> Option<u64>
    ensures { IfSome result (λ few. few ≡ 1 + symbols_lent (map left_tree left.now)) }
{
    let mut room = MOST_CLAUSE_LEVELS - 1;
    for one in left {
        room = left_behind(&one.literal.atom, room)?;
        if let Some(change) = &one.change {
            room = left_behind(change.term, room)?;
        }
    }
    Some(MOST_CLAUSE_LEVELS - room)
}

// Whether so few symbols can't become too many: if each became as many as a variable does at most, there were no more of them
// than a clause may have levels, and so no more levels either.
fn is_small_at_once(unifier: &Solution, left: &[Left]) -> bool
    ensures { result ≡ true → (many : ℕ) → is_too_large (left_clause
        (own_among many (by_bindings unifier.now)) (map left_tree left.now)) ≡ false }
{
    match few_symbols(left) {
        Some(few) => few.saturating_mul(unifier.most_symbols()) <= MOST_CLAUSE_LEVELS,
        None => false,
    }
}

/// How large all that is left is.
pub fn measure_all(unifier: &Solution, many: u64, left: &[Left]) -> Measure
    ensures { result ≡ clause_measured (left_clause
        (own_among many (by_bindings unifier.now)) (map left_tree left.now)) }
{
    let mut all = Measure::none();
    for one in left {
        all = all.beside(measure_left(unifier, many, one));
    }
    all
}

/// Whether a clause is too large for a search, by how large it is.
#[tactic(auto, using(crate::proofs::MeasureSteps::larger))]
pub fn is_beyond(measure: Measure) -> bool
    ensures { (c : ClauseTree) → measure ≡ clause_measured c → result ≡ is_too_large c }
{
    measure.depth > MOST_CLAUSE_LEVELS || measure.size > MOST_CLAUSE_SYMBOLS
}

/// Whether what is left is too large for a search.
pub fn is_too_large(unifier: &Solution, many: u64, left: &[Left]) -> bool
    ensures { result ≡ is_too_large (left_clause
        (own_among many (by_bindings unifier.now)) (map left_tree left.now)) }
{
    if is_small_at_once(unifier, left) {
        return false;
    }
    is_beyond(measure_all(unifier, many, left))
}
