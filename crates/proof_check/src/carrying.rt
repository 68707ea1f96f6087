// Answers carried through the words of a line.
ghost use Rattle.std.specs.Prelude.{◌≡◌, ◌↔◌, Some, IsTrue, IfOk, map};
ghost use Rattle.answered_lines.specs.Lines.{AfterWith, IsInferredWith, IsInstanceWith, answers_at, answers_of_line};
ghost use Rattle.answered_lines.specs.View.{answered_lines_of};
ghost use Rattle.answers.specs.AnswerView.{answers_of};
ghost use Rattle.carried_answers.specs.Carried.{lent_answers};
ghost use Rattle.derivation.specs.Lines.{inference_of};
ghost use Rattle.derivation.specs.View.{first_word_of, later_of, content_of, lines_of};
ghost use Rattle.inference.specs.Judged.{inference_by};
ghost use Rattle.proof_check.specs.Reached.{AreRising};

use crate::earlier::{clause_at, clauses_at, line_at};
use crate::inferring::{later_numbers, parent_numbers};
use answers::Answer;
use carried_answers::{AnsweredClause, answers_are_led, put_in};
use derivation::{Later, Line};
use std::alloc::{AllocError, Global};
use substitutions::Subst;

// The answers of the line of a number, none where it isn't there.
fn answers_of_number(earlier: &[Line], number: u64) -> &[Answer]
    requires { AreRising (lines_of earlier.now) }
    ensures { answers_of result.now ≡ answers_of_line (answered_lines_of earlier.now) number }
{
    match line_at(earlier, number) {
        None => &[],
        Some(line) => line.notes.answers.as_slice(),
    }
}

// The answers of some lines, lent.
#[tactic(auto, using(crate::proofs::CarryingSteps::answers_next, crate::proofs::CarryingSteps::answers_end))]
fn answers_at<'a>(
    alloc: Global,
    earlier: &'a [Line],
    numbers: &[u64],
) -> Result<Vec<&'a [Answer]>, AllocError>
    requires { AreRising (lines_of earlier.now) }
    ensures { IfOk result (λ us. lent_answers us.items
        ≡ answers_at (answered_lines_of earlier.now) numbers.now) }
{
    let mut found = Vec::new(alloc);
    for number in numbers {
        found.push(answers_of_number(earlier, *number))?;
    }
    Ok(found)
}

// Whether words lead from a clause with its answers to the content and the answers of a line.
#[tactic(auto, using(crate::proofs::CarryingSteps::carrying_start, crate::proofs::CarryingSteps::carrying_missing, crate::proofs::CarryingSteps::carrying_stops, crate::proofs::CarryingSteps::carrying_on, crate::proofs::CarryingSteps::carrying_ends))]
fn carry(
    alloc: Global,
    earlier: &[Line],
    words: &[Later],
    carried: AnsweredClause,
    line: &Line,
) -> Result<bool, AllocError>
    requires { AreRising (lines_of earlier.now) }
    ensures { IfOk result (λ are. IsTrue are ↔ AfterWith (answered_lines_of earlier.now)
        (map later_of words.now) carried.clause carried.answers (content_of line.now.content)
        (answers_of line.now.notes.answers.items)) }
{
    answers_are_led();
    let mut carried = carried;
    for word in words {
        let numbers = later_numbers(alloc, word)?;
        let Some(parents) = clauses_at(alloc, earlier, numbers.as_slice())? else {
            return Ok(false);
        };
        let answers = answers_at(alloc, earlier, numbers.as_slice())?;
        if !carried.follow_with(alloc, word, parents.as_slice(), answers.as_slice())? {
            return Ok(false);
        }
    }
    carried.is(alloc, &line.content, line.notes.answers.as_slice())
}

/// Whether a line's content and answers are what its rule and words make of earlier lines and theirs.
#[tactic(auto, using(crate::proofs::CarryingSteps::parents_gone, crate::proofs::CarryingSteps::rule_stops, crate::proofs::CarryingSteps::rule_leads))]
pub fn carry_inferred(alloc: Global, earlier: &[Line], line: &Line) -> Result<bool, AllocError>
    requires rising { AreRising (lines_of earlier.now) }
    requires rule { inference_of (first_word_of line.now.just.first)
        ≡ Some (inference_by (first_word_of line.now.just.first)) }
    ensures { IfOk result (λ are. IsTrue are ↔ IsInferredWith (answered_lines_of earlier.now)
        (inference_by (first_word_of line.now.just.first)) (map later_of line.now.just.steps.items)
        (content_of line.now.content) (answers_of line.now.notes.answers.items)) }
{
    answers_are_led();
    let numbers = parent_numbers(alloc, &line.just.first)?;
    let Some(parents) = clauses_at(alloc, earlier, numbers.as_slice())? else {
        return Ok(false);
    };
    let answers = answers_at(alloc, earlier, numbers.as_slice())?;
    let first = &line.just.first;
    match AnsweredClause::first(alloc, first, parents.as_slice(), answers.as_slice())? {
        None => Ok(false),
        Some(carried) => carry(alloc, earlier, line.just.steps.as_slice(), carried, line),
    }
}

/// Whether they are what its words make of an instance of an earlier line and its answers.
#[tactic(auto, using(crate::proofs::CarryingSteps::instance_gone, crate::proofs::CarryingSteps::instance_leads))]
pub fn carry_instance(
    alloc: Global,
    earlier: &[Line],
    number: u64,
    values: &Subst,
    line: &Line,
) -> Result<bool, AllocError>
    requires { AreRising (lines_of earlier.now) }
    ensures { IfOk result (λ are. IsTrue are ↔ IsInstanceWith (answered_lines_of earlier.now) number
        values.now (map later_of line.now.just.steps.items) (content_of line.now.content)
        (answers_of line.now.notes.answers.items)) }
{
    let Some(clause) = clause_at(earlier, number) else {
        return Ok(false);
    };
    let own = answers_of_number(earlier, number);
    let (instance, answers) = put_in(alloc, values, clause, own)?;
    let carried = AnsweredClause::of(alloc, &instance, answers.as_slice())?;
    carry(alloc, earlier, line.just.steps.as_slice(), carried, line)
}
