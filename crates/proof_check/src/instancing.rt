// Instances of clauses by terms that a line has.
ghost use Rattle.std.specs.Prelude.{◌≡◌, IfOk, map};
ghost use Rattle.derivation.specs.Lines.{instance_of};
ghost use Rattle.derivation.specs.View.{later_of, content_of, lines_of};
ghost use Rattle.fol_core.specs.Renumbered.{renumbered};
ghost use Rattle.proof_check.specs.Found.{AfterAs, InstanceAs};
ghost use Rattle.proof_check.specs.Reached.{AreRising};

use crate::earlier::clause_at;
use crate::inferring::{after, after_shared, later_there, may_lead};
use derivation::{Content, Later, Line, Row};
use fol_core::Clause;
use inference::{Instantiated, LargeInstance};
use shared_clauses::SharedClause;
use std::alloc::{AllocError, Global};
use substitutions::Subst;

// Whether words lead from an instance that isn't built to a content.
#[tactic(auto, using(crate::proofs::Alike::after_numbered))]
fn after_large(
    alloc: Global,
    earlier: &[Line],
    words: &[Later],
    large: &LargeInstance,
    content: &Content,
) -> Result<Option<Row>, AllocError>
    requires { AreRising (lines_of earlier.now) }
    ensures { IfOk result (AfterAs (lines_of earlier.now) (map later_of words.now)
        (renumbered large.now) (content_of content.now)) }
{
    if !may_lead(words, large.measure(), content) {
        return Ok(Some(Row::OtherClause));
    }
    let shared = SharedClause::of_instance(alloc, large)?;
    after_shared(alloc, earlier, words, shared, content)
}

// Whether words lead from the instance to a content.
fn after_instance(
    alloc: Global,
    earlier: &[Line],
    values: &Subst,
    clause: &Clause,
    words: &[Later],
    content: &Content,
) -> Result<Option<Row>, AllocError>
    requires { AreRising (lines_of earlier.now) }
    ensures { IfOk result (AfterAs (lines_of earlier.now) (map later_of words.now)
        (instance_of values.now clause.now) (content_of content.now)) }
{
    match inference::instantiate(alloc, values, clause)? {
        Instantiated::Small(small) => { after(alloc, earlier, words, small.into_clause(), content) }
        Instantiated::Large(large) => after_large(alloc, earlier, words, &large, content),
    }
}

/// Whether a line's content is what its words make of an instance of the clause of an earlier line.
#[tactic(auto, using(crate::proofs::InstanceSteps::parent_missing, crate::proofs::InstanceSteps::words_missing, crate::proofs::InstanceSteps::instance_after))]
pub fn instantiate(
    alloc: Global,
    earlier: &[Line],
    number: u64,
    values: &Subst,
    words: &[Later],
    content: &Content,
) -> Result<Option<Row>, AllocError>
    requires { AreRising (lines_of earlier.now) }
    ensures { IfOk result (InstanceAs (lines_of earlier.now) number values.now
        (map later_of words.now) (content_of content.now)) }
{
    let Some(clause) = clause_at(earlier, number) else {
        return Ok(Some(Row::NoParent));
    };
    if !later_there(alloc, earlier, words)? {
        return Ok(Some(Row::NoParent));
    }
    after_instance(alloc, earlier, values, clause, words, content)
}
