// Whether the answers of a line that is inferred, or an instance, are its own.
ghost use Rattle.std.specs.Prelude.{◌≡◌, ◌↔◌, ◌∷◌, Some, IsTrue, IfOk, map};
ghost use Rattle.std.specs.List.{flat_map};
ghost use Rattle.answered_lines.specs.Laws.{AnswerNothing};
ghost use Rattle.answered_lines.specs.Lines.{AfterWith, IsInferredWith, IsInstanceWith};
ghost use Rattle.answered_lines.specs.View.{answered_lines_of};
ghost use Rattle.answers.specs.AnswerView.{answers_of};
ghost use Rattle.derivation.specs.Later.{later_parents};
ghost use Rattle.derivation.specs.Lines.{inference_of, IsInferred, IsInstance};
ghost use Rattle.derivation.specs.Refused.{all_parents};
ghost use Rattle.derivation.specs.View.{first_word_of, later_of, content_of, lines_of};
ghost use Rattle.inference.specs.Judged.{inference_by};
ghost use Rattle.proof_check.specs.Found.{InferredWithAs, InstanceWithAs};
ghost use Rattle.proof_check.specs.Reached.{AreRising};

use crate::carrying::{carry_inferred, carry_instance};
use crate::earlier::{answer_nothing, has_no_answers};
use crate::inferring::{infer, later_numbers, parent_numbers};
use crate::instancing::instantiate;
use answered_lines::nothing_comes_of_none;
use derivation::{Just, Later, Line, Row};
use std::alloc::{AllocError, Global};
use substitutions::Subst;

// Whether the lines have no answers whose clauses words take.
#[tactic(auto, using(crate::proofs::AnsweringSteps::silent_start, crate::proofs::AnsweringSteps::silent_next, crate::proofs::AnsweringSteps::silent_end))]
fn words_bring_nothing(alloc: Global, earlier: &[Line], words: &[Later]) -> Result<bool, AllocError>
    requires { AreRising (lines_of earlier.now) }
    ensures { IfOk result (λ none. IsTrue none → AnswerNothing (answered_lines_of earlier.now)
        (flat_map later_parents (map later_of words.now))) }
{
    for word in words {
        let numbers = later_numbers(alloc, word)?;
        if !answer_nothing(earlier, numbers.as_slice()) {
            return Ok(false);
        }
    }
    Ok(true)
}

// Whether none of a line's parents has answers.
#[tactic(auto, using(crate::proofs::AnsweringSteps::both_silent))]
fn parents_bring_nothing(alloc: Global, earlier: &[Line], just: &Just) -> Result<bool, AllocError>
    requires { AreRising (lines_of earlier.now) }
    ensures { IfOk result (λ none. IsTrue none → AnswerNothing (answered_lines_of earlier.now)
        (all_parents (inference_by (first_word_of just.now.first))
        (map later_of just.now.steps.items))) }
{
    let numbers = parent_numbers(alloc, &just.first)?;
    if !answer_nothing(earlier, numbers.as_slice()) {
        return Ok(false);
    }
    let none = words_bring_nothing(alloc, earlier, just.steps.as_slice())?;
    Ok(none)
}

// Whether an inferred line has just the answers that its rule and words bring.
#[tactic(auto, using(crate::proofs::AnsweringSteps::inferred_silent, crate::proofs::AnsweringSteps::inferred_loud))]
fn are_inferred(alloc: Global, earlier: &[Line], line: &Line) -> Result<bool, AllocError>
    requires rising { AreRising (lines_of earlier.now) }
    requires rule { inference_of (first_word_of line.now.just.first)
        ≡ Some (inference_by (first_word_of line.now.just.first)) }
    requires plain { IsInferred (lines_of earlier.now)
        (inference_by (first_word_of line.now.just.first))
        (map later_of line.now.just.steps.items) (content_of line.now.content) }
    ensures { IfOk result (λ are. IsTrue are ↔ IsInferredWith (answered_lines_of earlier.now)
        (inference_by (first_word_of line.now.just.first)) (map later_of line.now.just.steps.items)
        (content_of line.now.content) (answers_of line.now.notes.answers.items)) }
{
    nothing_comes_of_none();
    if !parents_bring_nothing(alloc, earlier, &line.just)? {
        return carry_inferred(alloc, earlier, line);
    }
    if line.notes.answers.is_empty() {
        Ok(true)
    } else {
        Ok(false)
    }
}

/// Whether a line's content and answers are what its rule and words make of earlier lines. The content is judged first.
#[tactic(auto, using(crate::proofs::AnsweringSteps::inferred_plainly, crate::proofs::AnsweringSteps::inferred_apart))]
pub fn infer_with(alloc: Global, earlier: &[Line], line: &Line) -> Result<Option<Row>, AllocError>
    requires rising { AreRising (lines_of earlier.now) }
    requires rule { inference_of (first_word_of line.now.just.first)
        ≡ Some (inference_by (first_word_of line.now.just.first)) }
    ensures { IfOk result (InferredWithAs (answered_lines_of earlier.now)
        (first_word_of line.now.just.first) (map later_of line.now.just.steps.items)
        (content_of line.now.content) (answers_of line.now.notes.answers.items)) }
{
    match infer(alloc, earlier, &line.just, &line.content)? {
        Some(row) => Ok(Some(row)),
        None => {
            if are_inferred(alloc, earlier, line)? {
                Ok(None)
            } else {
                Ok(Some(Row::OtherClause))
            }
        }
    }
}

// Whether a line that is an instance has just the answers that this and the words bring.
#[tactic(auto, using(crate::proofs::AnsweringSteps::instance_silent, crate::proofs::AnsweringSteps::instance_loud))]
fn are_put_in(
    alloc: Global,
    earlier: &[Line],
    number: u64,
    values: &Subst,
    line: &Line,
) -> Result<bool, AllocError>
    requires rising { AreRising (lines_of earlier.now) }
    requires plain { IsInstance (lines_of earlier.now) number values.now
        (map later_of line.now.just.steps.items) (content_of line.now.content) }
    ensures { IfOk result (λ are. IsTrue are ↔ IsInstanceWith (answered_lines_of earlier.now) number
        values.now (map later_of line.now.just.steps.items) (content_of line.now.content)
        (answers_of line.now.notes.answers.items)) }
{
    nothing_comes_of_none();
    if !has_no_answers(earlier, number) {
        return carry_instance(alloc, earlier, number, values, line);
    }
    if !words_bring_nothing(alloc, earlier, line.just.steps.as_slice())? {
        return carry_instance(alloc, earlier, number, values, line);
    }
    if line.notes.answers.is_empty() {
        Ok(true)
    } else {
        Ok(false)
    }
}

/// Whether a line's content and answers are what its words make of an instance of an earlier line. The content is judged first.
#[tactic(auto, using(crate::proofs::AnsweringSteps::instance_plainly, crate::proofs::AnsweringSteps::instance_apart))]
pub fn instantiate_with(
    alloc: Global,
    earlier: &[Line],
    number: u64,
    values: &Subst,
    line: &Line,
) -> Result<Option<Row>, AllocError>
    requires { AreRising (lines_of earlier.now) }
    ensures { IfOk result (InstanceWithAs (answered_lines_of earlier.now) number values.now
        (map later_of line.now.just.steps.items) (content_of line.now.content)
        (answers_of line.now.notes.answers.items)) }
{
    let words = line.just.steps.as_slice();
    match instantiate(alloc, earlier, number, values, words, &line.content)? {
        Some(row) => Ok(Some(row)),
        None => {
            if are_put_in(alloc, earlier, number, values, line)? {
                Ok(None)
            } else {
                Ok(Some(Row::OtherClause))
            }
        }
    }
}
