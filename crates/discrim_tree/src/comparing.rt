// Whether two terms unify.
ghost use Rattle.std.specs.Prelude.{◌≡◌, IfOk};
ghost use Rattle.fol_core.specs.TermView.{tree_of};
ghost use Rattle.discrim_tree.specs.Terms.{can_unify};

use fol_core::Term;
use std::alloc::{AllocError, Global};
use term_unifiers::TermPair;

/// Whether two terms, with variables of their own each, have a unifier.
pub fn can_unify(alloc: Global, s: &Term, t: &Term) -> Result<bool, AllocError>
    ensures { IfOk result (λ found. found ≡ can_unify (tree_of s.now) (tree_of t.now)) }
{
    let pair = TermPair::new(alloc, s, t)?;
    Ok(pair.can_unify())
}
