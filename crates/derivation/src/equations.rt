// Equations, and the terms below an atom.
ghost use Rattle.std.specs.Prelude.{◌≡◌, false, unwrap_or, MatchOption};
ghost use Rattle.std.specs.Option.{option_map};
ghost use Rattle.derivation.specs.Equations.{is_equation, left_of, right_of, below, is_there, is_no_variable};
ghost use Rattle.derivation.specs.Sides.{sides_of, AreSides};
ghost use Rattle.fol_core.specs.TermView.{tree_of};
ghost use Rattle.fol_core.specs.Tree.{var};

use fol_core::{EQ, Term};
use substitutions::subterm_at;

/// The sides of an atom, if it is an equation.
#[tactic(auto, using(crate::proofs::SideSteps::few_no_sides, crate::proofs::SideSteps::few_no_equation, crate::proofs::SideSteps::other_no_sides, crate::proofs::SideSteps::other_no_equation, crate::proofs::SideSteps::both_sides, crate::proofs::SideSteps::are_sides))]
pub fn sides(atom: &Term) -> Option<(&Term, &Term)>
    ensures sides { option_map (λ p. (tree_of p.0.now, tree_of p.1.now)) result
        ≡ sides_of (tree_of atom.now) }
    ensures cases { MatchOption result (is_equation (tree_of atom.now) ≡ false)
        (λ p. AreSides (tree_of atom.now) (tree_of p.0.now) (tree_of p.1.now)) }
{
    match atom {
        Term::Var(_) => None,
        Term::Elem(_) => None,
        Term::App(relation, terms) => {
            if terms.items.len() != 2 {
                return None;
            }
            if relation.0 != EQ.0 {
                return None;
            }
            Some((&terms.items[0], &terms.items[1]))
        }
    }
}

/// Whether an atom is an equation.
#[tactic(auto, using(crate::proofs::SideSteps::sides_tell))]
pub fn is_equation(atom: &Term) -> bool
    ensures { result ≡ is_equation (tree_of atom.now) }
{
    sides(atom).is_some()
}

/// The left side of an equation; of another atom its first argument, if it has one.
#[tactic(auto, using(crate::proofs::SideSteps::left_first, crate::proofs::SideSteps::left_none))]
pub fn left_of(atom: &Term) -> Option<&Term>
    ensures { unwrap_or (option_map (λ t. tree_of t.now) result) (var 0)
        ≡ left_of (tree_of atom.now) }
{
    match atom {
        Term::Var(_) => None,
        Term::Elem(_) => None,
        Term::App(_, terms) => {
            if terms.items.len() == 0 {
                return None;
            }
            Some(&terms.items[0])
        }
    }
}

/// The right side of an equation; of another atom its second argument, if it has two.
#[tactic(auto, using(crate::proofs::SideSteps::right_second, crate::proofs::SideSteps::right_none))]
pub fn right_of(atom: &Term) -> Option<&Term>
    ensures { unwrap_or (option_map (λ t. tree_of t.now) result) (var 0)
        ≡ right_of (tree_of atom.now) }
{
    match atom {
        Term::Var(_) => None,
        Term::Elem(_) => None,
        Term::App(_, terms) => {
            if terms.items.len() < 2 {
                return None;
            }
            Some(&terms.items[1])
        }
    }
}

/// The term below an atom at a path, which has one number at least.
pub fn below<'a>(atom: &'a Term, path: &[u64]) -> Option<&'a Term>
    ensures { option_map (λ t. tree_of t.now) result ≡ below (tree_of atom.now) path.now }
{
    if path.is_empty() {
        return None;
    }
    subterm_at(atom, path)
}

/// Whether there is a term below the atom at the path.
pub fn is_there(atom: &Term, path: &[u64]) -> bool
    ensures { result ≡ is_there (below (tree_of atom.now) path.now) }
{
    match below(atom, path) {
        Some(_) => true,
        None => false,
    }
}

/// Whether there is one that is no variable.
pub fn is_no_variable(atom: &Term, path: &[u64]) -> bool
    ensures { result ≡ is_no_variable (below (tree_of atom.now) path.now) }
{
    match below(atom, path) {
        None => false,
        Some(term) => match term {
            Term::Var(_) => false,
            Term::Elem(_) => true,
            Term::App(_, _) => true,
        },
    }
}
