// The sides of rules and of equations, and clauses of one literal.
ghost use Rattle.std.specs.Prelude.{◌≡◌, ◌&&◌, unwrap_or};
ghost use Rattle.std.specs.Option.{option_map};
ghost use Rattle.derivation.specs.Equations.{is_equation, left_of, right_of};
ghost use Rattle.derivation.specs.Later.{is_unit};
ghost use Rattle.derivation.specs.Places.{atom_at};
ghost use Rattle.fol_core.specs.TermView.{tree_of};
ghost use Rattle.fol_core.specs.Tree.{var};
ghost use Rattle.unifiers.specs.Matching.{same_tree};

use crate::held::Held;
use derivation::{atom_at, left_of, right_of, sides};
use fol_core::{Clause, Term};
use substitutions::same;

/// The left side of a rule; of another clause the first argument of its first atom, if there is one.
pub fn rule_left(rule: &Held) -> Option<&Term>
    ensures { unwrap_or (option_map (λ t. tree_of t.now) result) (var 0)
        ≡ left_of (atom_at rule.now.clause 0) }
{
    match atom_at(rule.clause(), 0) {
        Some(atom) => left_of(atom),
        None => None,
    }
}

/// The right side of a rule; of another clause the second argument of its first atom, if there is one.
pub fn rule_right(rule: &Held) -> Option<&Term>
    ensures { unwrap_or (option_map (λ t. tree_of t.now) result) (var 0)
        ≡ right_of (atom_at rule.now.clause 0) }
{
    match atom_at(rule.clause(), 0) {
        Some(atom) => right_of(atom),
        None => None,
    }
}

/// Whether an atom is an equation of one term with itself.
pub fn has_same_sides(atom: &Term) -> bool
    ensures { result ≡ (is_equation (tree_of atom.now)
        && same_tree (left_of (tree_of atom.now)) (right_of (tree_of atom.now))) }
{
    let Some((left, right)) = sides(atom) else {
        return false;
    };
    same(left, right)
}

/// Whether a clause is one literal.
pub fn is_unit(clause: &Clause) -> bool
    ensures { result ≡ is_unit clause.now }
{
    clause.len() == 1
}
