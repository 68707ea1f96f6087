// Whether clauses may be the same, by how large they are.
ghost use Rattle.std.specs.Prelude.{◌≡◌, IsTrue};
ghost use Rattle.clause_limits.specs.Sizes.{clause_depth, clause_size};
ghost use Rattle.derivation.specs.Lines.{IsClause};
ghost use Rattle.derivation.specs.View.{content_of};
ghost use Rattle.fol_core.specs.Literals.{ClauseTree};
ghost use Rattle.fol_core.specs.Sizes.{saturated};
ghost use Rattle.inference.specs.Measured.{clause_measured};
ghost use Rattle.proof_check.specs.Sized.{is_as_large, is_as_deep, may_be};

use clause_limits::{Measure, is_clause_deeper, left_behind_clause};
use derivation::Content;
use fol_core::Clause;

// Whether a clause has so many symbols and variables as one of this size, as far as these are counted.
#[tactic(auto, using(crate::proofs::SizeSteps::as_many, crate::proofs::SizeSteps::more))]
fn is_as_large(clause: &Clause, size: u64) -> bool
    ensures { (d : ClauseTree) → size ≡ saturated (clause_size d) → result ≡ is_as_large clause.now d }
{
    match left_behind_clause(clause, size) {
        Some(left) => left == 0,
        None => size == u64::MAX,
    }
}

// Whether it has as many levels, or more, as far as the other's are counted.
#[tactic(auto, using(crate::proofs::SizeSteps::none_deep, crate::proofs::SizeSteps::as_deep))]
fn is_as_deep(clause: &Clause, depth: u64) -> bool
    ensures { (d : ClauseTree) → depth ≡ saturated (clause_depth d) → result ≡ is_as_deep clause.now d }
{
    if depth == 0 {
        return true;
    }
    is_clause_deeper(clause, depth - 1)
}

/// Whether a content may be a clause that isn't built, by how large that is: each that is it may.
#[tactic(auto, using(crate::proofs::SizeSteps::same_size))]
pub fn may_be(content: &Content, measure: Measure) -> bool
    ensures size { (d : ClauseTree) → measure ≡ clause_measured d
        → result ≡ may_be (content_of content.now) d }
    ensures conclusion { (d : ClauseTree) → measure ≡ clause_measured d
        → IsClause (content_of content.now) d → IsTrue result }
{
    match content {
        Content::Formula(_, _) => false,
        Content::Clause(clause) => {
            if !is_as_large(clause, measure.size) {
                return false;
            }
            is_as_deep(clause, measure.depth)
        }
    }
}
