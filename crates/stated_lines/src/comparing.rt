// Clauses with answers that are the same, but for the numbers of their variables.
ghost use Rattle.std.specs.Prelude.{◌≡◌, ◌↔◌, IsTrue, IfOk};
ghost use Rattle.derivation.specs.Lines.{IsClause};
ghost use Rattle.fol_core.specs.Renumbered.{renumbered};
ghost use Rattle.answered_lines.specs.Lines.{IsClauseWith};
ghost use Rattle.answers.specs.AnswerTrees.{IsSame, numbered_clause, numbered_answers};
ghost use Rattle.answers.specs.AnswerView.{answers_of};
ghost use Rattle.derivation.specs.View.{content_of};

use answers::{Answer, copy_answers, is_same_answer, numbered_with};
use clause_limits::left_behind_clause;
use derivation::Content;
use fol_core::{Clause, renumber};
use std::alloc::{AllocError, Global};
use substitutions::same_clause;

// Whether two clauses may be the same, but for the numbers of variables, by how large they are: two that are may.
#[tactic(auto, using(crate::proofs::AnswerSteps::same_sizes))]
fn may_be_same(own: &Clause, other: &Clause) -> bool
    ensures { renumbered own.now ≡ renumbered other.now → IsTrue result }
{
    let Some(left) = left_behind_clause(other, u64::MAX) else {
        return true;
    };
    match left_behind_clause(own, u64::MAX - left) {
        Some(rest) => rest == 0,
        None => false,
    }
}

/// Whether a content is a clause, but for the numbers of variables.
pub fn is_clause(alloc: Global, content: &Content, clause: &Clause) -> Result<bool, AllocError>
    ensures { IfOk result (λ is. IsTrue is ↔ IsClause (content_of content.now) clause.now) }
{
    match content {
        Content::Formula(_, _) => Ok(false),
        Content::Clause(own) => {
            // Numbering takes time, and most clauses that differ differ in size.
            if !may_be_same(own, clause) {
                return Ok(false);
            }
            let own = renumber(alloc, own)?;
            let other = renumber(alloc, clause)?;
            Ok(same_clause(&own, &other))
        }
    }
}

/// Whether answers are the same, one by one.
#[tactic(auto, using(crate::proofs::AnswerSteps::answers_length, crate::proofs::AnswerSteps::answers_apart, crate::proofs::AnswerSteps::answers_next, crate::proofs::AnswerSteps::answers_end))]
pub fn same_answers(left: &[Answer], right: &[Answer]) -> bool
    ensures { IsTrue result ↔ (answers_of left.now ≡ answers_of right.now) }
{
    if left.len() != right.len() {
        return false;
    }
    for (i, answer) in left.iter().enumerate() {
        if !is_same_answer(answer, &right[i]) {
            return false;
        }
    }
    true
}

// A clause and its answers, copied, with the variables of both numbered.
fn numbered_copy(
    alloc: Global,
    clause: &Clause,
    answers: &[Answer],
) -> Result<(Clause, Vec<Answer>), AllocError>
    ensures clause { IfOk result (λ r. r.0 ≡ numbered_clause clause.now (answers_of answers.now)) }
    ensures answers { IfOk result (λ r. answers_of r.1.items
        ≡ numbered_answers clause.now (answers_of answers.now)) }
{
    let clause = clause.copy(alloc)?;
    let answers = copy_answers(alloc, answers)?;
    numbered_with(alloc, clause, answers)
}

// Whether a clause with answers is another one with its own.
#[tactic(auto, using(crate::proofs::AnswerSteps::same_with, crate::proofs::AnswerSteps::clauses_apart, crate::proofs::AnswerSteps::answers_differ))]
fn is_same(
    alloc: Global,
    own: &Clause,
    own_answers: &[Answer],
    other: &Clause,
    other_answers: &[Answer],
) -> Result<bool, AllocError>
    ensures { IfOk result (λ is. IsTrue is ↔ IsSame own.now (answers_of own_answers.now) other.now
        (answers_of other_answers.now)) }
{
    if !may_be_same(own, other) {
        return Ok(false);
    }
    let (clause, answers) = numbered_copy(alloc, own, own_answers)?;
    let (second, others) = numbered_copy(alloc, other, other_answers)?;
    if !same_clause(&clause, &second) {
        return Ok(false);
    }
    if !same_answers(&answers, &others) {
        return Ok(false);
    }
    Ok(true)
}

// Whether a content is a clause, and both have answers or one has.
fn is_whole(
    alloc: Global,
    content: &Content,
    own_answers: &[Answer],
    clause: &Clause,
    answers: &[Answer],
) -> Result<bool, AllocError>
    ensures { IfOk result (λ is. IsTrue is ↔ IsClauseWith (content_of content.now)
        (answers_of own_answers.now) clause.now (answers_of answers.now)) }
{
    match content {
        Content::Formula(_, _) => Ok(false),
        Content::Clause(own) => is_same(alloc, own, own_answers, clause, answers),
    }
}

/// Whether a content with answers is a clause with these, but for the numbers of variables. Without answers the clauses alone
/// are compared.
pub fn is_clause_with(
    alloc: Global,
    content: &Content,
    own_answers: &[Answer],
    clause: &Clause,
    answers: &[Answer],
) -> Result<bool, AllocError>
    ensures { IfOk result (λ is. IsTrue is ↔ IsClauseWith (content_of content.now)
        (answers_of own_answers.now) clause.now (answers_of answers.now)) }
{
    if own_answers.len() != 0 {
        return is_whole(alloc, content, own_answers, clause, answers);
    }
    if answers.len() != 0 {
        return is_whole(alloc, content, own_answers, clause, answers);
    }
    let plain = is_clause(alloc, content, clause)?;
    Ok(plain)
}
