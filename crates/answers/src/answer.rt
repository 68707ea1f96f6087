// One answer.
ghost use Rattle.std.specs.Prelude.{◌≡◌, IfOk};
ghost use Rattle.answers.specs.AnswerTrees.{same_answer, substitute_answer};
ghost use Rattle.answers.specs.AnswerView.{answer_of};
ghost use Rattle.fol_core.specs.Substitutions.{substitute_all};
ghost use Rattle.fol_core.specs.TermView.{tree_list};
ghost use Rattle.fol_core.specs.Tree.{trees_of};
ghost use Rattle.substitutions.specs.Bindings.{by_bindings};
ghost use Rattle.unifiers.specs.Matching.{same_trees};

use fol_core::{Term, Terms};
use std::alloc::{AllocError, Global};
use substitutions::{Subst, apply, same};

/// Terms for what the goal of the line of this number asks for.
#[derive(Drop)]
pub struct Answer {
    pub goal: u64,
    pub terms: Terms,
}

impl Answer {
    /// An equal answer.
    pub fn copy(&self, alloc: Global) -> Result<Answer, AllocError>
        ensures { IfOk result (λ copy. answer_of copy ≡ answer_of self.now) }
    {
        let terms = self.terms.copy(alloc)?;
        Ok(Answer {
            goal: self.goal,
            terms,
        })
    }
}

/// The answer with terms put in for its variables.
pub fn apply_answer(alloc: Global, answer: &Answer, subst: &Subst) -> Result<Answer, AllocError>
    ensures { IfOk result (λ a. answer_of a
        ≡ substitute_answer (by_bindings subst.now) (answer_of answer.now)) }
{
    let terms = apply_all(alloc, answer.terms.as_slice(), subst)?;
    Ok(Answer {
        goal: answer.goal,
        terms,
    })
}

// The terms with terms put in for their variables.
fn apply_all(alloc: Global, terms: &[Term], subst: &Subst) -> Result<Terms, AllocError>
    ensures { IfOk result (λ made. trees_of made
        ≡ substitute_all (by_bindings subst.now) (trees_of (tree_list terms.now))) }
{
    let mut made = Terms::with_capacity(alloc, terms.len())?;
    for term in terms {
        made.push(apply(alloc, term, subst)?)?;
    }
    Ok(made)
}

/// Whether two answers are the same.
pub fn is_same_answer(left: &Answer, right: &Answer) -> bool
    ensures { result ≡ same_answer (answer_of left.now) (answer_of right.now) }
{
    left.goal == right.goal && are_same(left.terms.as_slice(), right.terms.as_slice())
}

// Whether terms are the same.
#[tactic(auto, using(crate::proofs::Sameness::same_here, crate::proofs::Sameness::same_not, crate::proofs::Sameness::same_end, crate::proofs::Sameness::as_many))]
fn are_same(left: &[Term], right: &[Term]) -> bool
    ensures { result ≡ same_trees (trees_of (tree_list left.now)) (trees_of (tree_list right.now)) }
{
    if left.len() != right.len() {
        return false;
    }
    for (i, term) in left.iter().enumerate() {
        if !same(term, &right[i]) {
            return false;
        }
    }
    true
}
