// The answers of a clause.
ghost use Rattle.std.specs.Prelude.{◌≡◌, IfOk};
ghost use Rattle.std.specs.List.{list_any};
ghost use Rattle.answers.specs.AnswerTrees.{substitute_answers, same_answer, each_once};
ghost use Rattle.answers.specs.AnswerView.{answer_of, answers_of};
ghost use Rattle.substitutions.specs.Bindings.{by_bindings};

use crate::answer::{Answer, apply_answer, is_same_answer};
use std::alloc::{AllocError, Global};
use substitutions::Subst;

/// Equal answers.
pub fn copy_answers(alloc: Global, answers: &[Answer]) -> Result<Vec<Answer>, AllocError>
    ensures { IfOk result (λ us. answers_of us.items ≡ answers_of answers.now) }
{
    let mut copies = Vec::with_capacity(alloc, answers.len())?;
    for answer in answers {
        copies.push(answer.copy(alloc)?)?;
    }
    Ok(copies)
}

/// The answers with terms put in for their variables.
pub fn apply_answers(
    alloc: Global,
    answers: &[Answer],
    subst: &Subst,
) -> Result<Vec<Answer>, AllocError>
    ensures { IfOk result (λ us. answers_of us.items
        ≡ substitute_answers (by_bindings subst.now) (answers_of answers.now)) }
{
    let mut made = Vec::with_capacity(alloc, answers.len())?;
    for answer in answers {
        made.push(apply_answer(alloc, answer, subst)?)?;
    }
    Ok(made)
}

/// The answers without those that stand before.
#[tactic(auto, using(crate::proofs::Among::added_there, crate::proofs::Among::added_new))]
pub fn each_once(alloc: Global, answers: Vec<Answer>) -> Result<Vec<Answer>, AllocError>
    ensures { IfOk result (λ us. answers_of us.items ≡ each_once (answers_of answers.items)) }
{
    let mut kept: Vec<Answer> = Vec::new(alloc);
    for answer in answers {
        if !is_among(&answer, &kept) {
            kept.push(answer)?;
        }
    }
    Ok(kept)
}

// Whether an answer is among some.
#[tactic(auto, using(crate::proofs::Among::among_here, crate::proofs::Among::among_behind, crate::proofs::Among::among_end))]
fn is_among(answer: &Answer, some: &[Answer]) -> bool
    ensures { result ≡ list_any (same_answer (answer_of answer.now)) (answers_of some.now) }
{
    for one in some {
        if is_same_answer(answer, one) {
            return true;
        }
    }
    false
}
