// The sides of equations, and what they may replace.
ghost use Rattle.std.specs.Prelude.{◌≡◌, false, IfOk, MatchOption};
ghost use Rattle.derivation.specs.Words.{side_of};
ghost use Rattle.fol_core.specs.TermView.{tree_of};
ghost use Rattle.held_clauses.specs.Order.{greater_of};
ghost use Rattle.paramod.specs.Sites.{IsLargerSide, NeverReplaced, takes_side};
ghost use Rattle.prover_steps.specs.Equalities.{is_bare_variable, is_oriented};

use derivation::sides;
use discrim_tree::may_meet;
use fol_core::Term;
use held_clauses::is_greater;
use std::alloc::AllocError;
use term_order::Precedence;

/// Whether a term is a variable.
pub fn is_bare_variable(term: &Term) -> bool
    ensures { result ≡ is_bare_variable (tree_of term.now) }
{
    match term {
        Term::Var(_) => true,
        Term::Elem(_) => false,
        Term::App(_, _) => false,
    }
}

/// Whether a side may be put in for a term: no only where it is a variable, or never meets the side.
pub fn may_be_replaced(side: &Term, term: &Term) -> bool
    ensures { result ≡ false → NeverReplaced (tree_of side.now) (tree_of term.now) }
{
    match term {
        Term::Var(_) => false,
        Term::Elem(_) => may_meet(side, term),
        Term::App(_, _) => may_meet(side, term),
    }
}

/// The left side of an atom, if that is an equation whose left side is greater.
#[tactic(auto, using(crate::proofs::Taken::no_larger, crate::proofs::Taken::other_larger, crate::proofs::Taken::left_larger))]
pub fn larger_side<'a>(
    precedence: &Precedence,
    atom: &'a Term,
) -> Result<Option<&'a Term>, AllocError>
    ensures { IfOk result (λ o. MatchOption o
        (is_oriented (greater_of precedence.now) (tree_of atom.now) ≡ false)
        (λ t. IsLargerSide (greater_of precedence.now) (tree_of atom.now) (tree_of t.now))) }
{
    let Some((left, right)) = sides(atom) else {
        return Ok(None);
    };
    if is_greater(precedence, left, right)? {
        Ok(Some(left))
    } else {
        Ok(None)
    }
}

/// Whether an atom is an equation whose left side is greater.
#[tactic(auto, using(crate::proofs::Taken::larger_tells))]
pub fn is_oriented(precedence: &Precedence, atom: &Term) -> Result<bool, AllocError>
    ensures { IfOk result (λ b. b ≡ is_oriented (greater_of precedence.now) (tree_of atom.now)) }
{
    Ok(larger_side(precedence, atom)?.is_some())
}

/// Whether a side of an equation is taken: no variable, and of an oriented one the left.
#[tactic(auto, using(crate::proofs::Taken::side_bare, crate::proofs::Taken::side_first, crate::proofs::Taken::side_second))]
pub fn is_taken(
    precedence: &Precedence,
    side: u64,
    term: &Term,
    atom: &Term,
) -> Result<bool, AllocError>
    requires { tree_of term.now ≡ side_of side (tree_of atom.now) }
    ensures { IfOk result (λ b. b
        ≡ takes_side (greater_of precedence.now) (tree_of atom.now) side) }
{
    if is_bare_variable(term) {
        return Ok(false);
    }
    if side != 2 {
        return Ok(true);
    }
    Ok(!is_oriented(precedence, atom)?)
}
