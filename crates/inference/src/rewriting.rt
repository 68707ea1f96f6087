// Rules: equations whose right side has no variable of its own.
ghost use Rattle.std.specs.Prelude.{◌≡◌, ◌&&◌, IsTrue, MatchOption, false};
ghost use Rattle.std.specs.List.{list_all};
ghost use Rattle.derivation.specs.Equations.{left_of, right_of};
ghost use Rattle.derivation.specs.Later.{is_rule_equation, is_unit};
ghost use Rattle.derivation.specs.Places.{atom_at, has_literal};
ghost use Rattle.fol_core.specs.Free.{variables_of};
ghost use Rattle.fol_core.specs.TermView.{tree_of};
ghost use Rattle.inference.specs.Followed.{AreRuleSides, is_rule_clause};
ghost use Rattle.substitutions.specs.Occurring.{has_variable};

use crate::fitting::atom;
use derivation::{has_literal, sides};
use fol_core::{Clause, Term};
use substitutions::has_variable;

// Whether all variables of a term are those of another.
#[tactic(auto, using(crate::proofs::CoverSteps::covered_no, crate::proofs::CoverSteps::covered_on, crate::proofs::CoverSteps::covered_end))]
fn is_covered(term: &Term, left: &Term) -> bool
    ensures { result ≡ list_all (λ x. has_variable x (tree_of left.now))
        (variables_of (tree_of term.now)) }
{
    match term {
        Term::Var(x) => has_variable(left, *x),
        Term::Elem(_) => true,
        Term::App(_, terms) => {
            for term in &terms.items {
                if !is_covered(term, left) {
                    return false;
                }
            }
            true
        }
    }
}

/// The sides of a clause that is a rule: one equation, whose right side has no variable of its own.
pub fn rule_sides(rule: &Clause) -> Option<(&Term, &Term)>
    ensures { MatchOption result (is_rule_clause rule.now ≡ false)
        (λ p. AreRuleSides rule.now (tree_of p.0.now) (tree_of p.1.now)) }
{
    if rule.len() != 1 {
        return None;
    }
    if !has_literal(rule, true, 0) {
        return None;
    }
    match sides(atom(rule, 0)) {
        None => None,
        Some((left, right)) => {
            if is_covered(right, left) {
                Some((left, right))
            } else {
                None
            }
        }
    }
}
