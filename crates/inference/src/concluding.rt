// A conclusion, from a most general unifier and what is left.
ghost use Rattle.std.specs.Prelude.{IfOk, map};
ghost use Rattle.inference.specs.Applied.{IsMeasuredAs};
ghost use Rattle.inference.specs.Judged.{IsConclusion};
ghost use Rattle.inference.specs.Left.{left_clause, left_tree};
ghost use Rattle.substitutions.specs.Bindings.{by_bindings};
ghost use Rattle.term_unifiers.specs.Renamed.{own_among};

use crate::applied::{Applied, Premises};
use crate::building::built;
use crate::large::LargeConclusion;
use crate::left::Left;
use crate::measuring::is_too_large;
use crate::rules::Judged;
use clause_limits::SmallClause;
use std::alloc::{AllocError, Global};
use term_unifiers::Solution;

// The conclusion under a unifier of so many parents: built exactly where it isn't too large for a search.
#[tactic(auto, using(clause_limits::proofs::Numbered::numbered_as_large))]
fn conclude<'a>(
    alloc: Global,
    unifier: Solution,
    many: u64,
    left: Vec<Left<'a>>,
) -> Result<Judged<'a>, AllocError>
    ensures { IfOk result (IsConclusion (left_clause
        (own_among many (by_bindings unifier)) (map left_tree left.entry.items))) }
{
    if is_too_large(&unifier, many, left.as_slice()) {
        return Ok(Judged::Large(LargeConclusion::new(unifier, many, left)));
    }
    let clause = built(alloc, &unifier, many, left.as_slice())?;
    Ok(Judged::Small(SmallClause::of(clause)))
}

/// What comes of what a rule takes, when that is measured.
pub fn conclude_applied<'a>(alloc: Global, applied: Applied<'a>) -> Result<Judged<'a>, AllocError>
    ensures { IfOk result (IsMeasuredAs applied.entry) }
{
    match applied {
        Applied::Unfit => Ok(Judged::Unfit),
        Applied::Apart => Ok(Judged::Apart),
        Applied::To(premises) => {
            let Premises {
                unifier,
                many,
                left,
            } = premises;
            conclude(alloc, unifier, many, left)
        }
    }
}
