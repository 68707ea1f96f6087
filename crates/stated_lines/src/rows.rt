// Input clauses with their answers.
ghost use Rattle.std.specs.Prelude.{◌≡◌, ◌↔◌, ◌<◌, IsTrue, IfOk, length, slice_index_or, if◌then◌else◌};
ghost use Rattle.std.specs.Option.{option_map};
ghost use Rattle.answered_lines.specs.Lines.{answered_row, IsRowWith, IsSome, row_answers};
ghost use Rattle.answered_lines.specs.View.{answered_line};
ghost use Rattle.answers.specs.AnswerView.{answers_of};
ghost use Rattle.derivation.specs.Lines.{assumed, wanted};
ghost use Rattle.derivation.specs.View.{first_word_of, content_of};
ghost use Rattle.fol_core.specs.FormulaView.{fol_of};
ghost use Rattle.fol_core.specs.Tree.{trees_of};
ghost use Rattle.stated_lines.specs.Held.{asked_inputs, rows_with, row_at, IsInputOfLine};

use crate::comparing::is_clause_with;
use crate::saying::{counted, input_of, is_said};
use answers::Answer;
use derivation::{Content, First, Line};
use fol_core::{Clause, Shape, Terms};
use fol_problem::Input;
use std::alloc::{AllocError, Global};

// The answers that an input clause has where its formula is that of a line.
fn answers_for(
    alloc: Global,
    asks: Option<&[u64]>,
    number: u64,
    terms: &Terms,
) -> Result<Vec<Answer>, AllocError>
    ensures { IfOk result (λ us. answers_of us.items
        ≡ row_answers (option_map (λ s. s.now) asks.entry) number (trees_of terms.now)) }
{
    let mut answers = Vec::new(alloc);
    match asks {
        None => {}
        Some(_) => {
            let terms = terms.copy(alloc)?;
            answers.push(Answer {
                goal: number,
                terms,
            })?;
        }
    }
    Ok(answers)
}

// Whether a row is one of the formula of the line of a number, with the content and the answers of another line.
#[tactic(auto, using(crate::proofs::RowSteps::row_missing, crate::proofs::RowSteps::row_other, crate::proofs::RowSteps::row_clause))]
fn is_row(
    alloc: Global,
    inputs: &[Input],
    row: &(u64, Clause),
    terms: &Terms,
    goal: bool,
    shape: &Shape,
    asks: Option<&[u64]>,
    number: u64,
    line: &Line,
) -> Result<bool, AllocError>
    ensures { IfOk result (λ is. IsTrue is ↔ IsRowWith goal (fol_of shape.now)
        (option_map (λ s. s.now) asks.entry) (asked_inputs inputs.now) number
        (content_of line.now.content) (answers_of line.now.notes.answers.items)
        (answered_row row.now (trees_of terms.now))) }
{
    let Some(input) = input_of(inputs, row.0) else {
        return Ok(false);
    };
    if !is_said(input, goal, shape, asks) {
        return Ok(false);
    }
    let answers = answers_for(alloc, asks, number, terms)?;
    let own = line.notes.answers.as_slice();
    let same = is_clause_with(alloc, &line.content, own, &row.1, &answers)?;
    Ok(same)
}

// The terms at a place, or these where none stand there.
#[tactic(auto, using(crate::proofs::RowSteps::there, crate::proofs::RowSteps::past))]
fn terms_at<'a>(answers: &'a [Terms], none: &'a Terms, place: usize) -> &'a Terms
    ensures { result.now ≡ slice_index_or answers.now place none.now }
{
    if place < answers.len() {
        &answers[place]
    } else {
        none
    }
}

// Whether the row at a place is, with the terms that stand there.
fn is_row_at(
    alloc: Global,
    inputs: &[Input],
    rows: &[(u64, Clause)],
    answers: &[Terms],
    place: usize,
    goal: bool,
    shape: &Shape,
    asks: Option<&[u64]>,
    number: u64,
    line: &Line,
) -> Result<bool, AllocError>
    requires { place < length rows.now }
    ensures { IfOk result (λ is. IsTrue is ↔ IsRowWith goal (fol_of shape.now)
        (option_map (λ s. s.now) asks.entry) (asked_inputs inputs.now) number
        (content_of line.now.content) (answers_of line.now.notes.answers.items)
        (row_at rows.now answers.now place)) }
{
    let none = Terms::new(alloc);
    let terms = terms_at(answers, &none, place);
    let row = &rows[place];
    let found = is_row(alloc, inputs, row, terms, goal, shape, asks, number, line)?;
    Ok(found)
}

// Whether one of the rows is.
#[tactic(auto, using(crate::proofs::RowSteps::rows_here, crate::proofs::RowSteps::rows_behind, crate::proofs::RowSteps::rows_end, crate::proofs::RowSteps::rows_start))]
fn is_input(
    alloc: Global,
    inputs: &[Input],
    rows: &[(u64, Clause)],
    answers: &[Terms],
    goal: bool,
    shape: &Shape,
    asks: Option<&[u64]>,
    number: u64,
    line: &Line,
) -> Result<bool, AllocError>
    ensures { IfOk result (λ is. IsTrue is ↔ IsSome (IsRowWith goal (fol_of shape.now)
        (option_map (λ s. s.now) asks.entry) (asked_inputs inputs.now) number
        (content_of line.now.content) (answers_of line.now.notes.answers.items))
        (rows_with rows.now answers.now)) }
{
    for place in 0..rows.len() {
        if is_row_at(
            alloc, inputs, rows, answers, place, goal, shape, asks, number, line,
        )? {
            return Ok(true);
        }
    }
    Ok(false)
}

// Whether one of the rows is; the one at a place is looked at first.
#[tactic(auto, using(crate::proofs::RowSteps::row_there))]
fn is_input_from(
    alloc: Global,
    inputs: &[Input],
    rows: &[(u64, Clause)],
    answers: &[Terms],
    place: usize,
    goal: bool,
    shape: &Shape,
    asks: Option<&[u64]>,
    number: u64,
    line: &Line,
) -> Result<bool, AllocError>
    ensures { IfOk result (λ is. IsTrue is ↔ IsSome (IsRowWith goal (fol_of shape.now)
        (option_map (λ s. s.now) asks.entry) (asked_inputs inputs.now) number
        (content_of line.now.content) (answers_of line.now.notes.answers.items))
        (rows_with rows.now answers.now)) }
{
    if place < rows.len() {
        if is_row_at(
            alloc, inputs, rows, answers, place, goal, shape, asks, number, line,
        )? {
            return Ok(true);
        }
    }
    is_input(
        alloc, inputs, rows, answers, goal, shape, asks, number, line,
    )
}

// Whether a word states a goal, or another formula.
fn states(first: &First, goal: bool) -> bool
    ensures { IsTrue result ↔ (first_word_of first.now ≡ (if goal then wanted else assumed)) }
{
    if goal {
        let First::Goal = first else {
            return false;
        };
        true
    } else {
        let First::Assumption = first else {
            return false;
        };
        true
    }
}

/// Whether a line's content is, with its answers, a clause of the formula of another line, as a goal that asks for what that line
/// says or as another one. The row at a place is looked at first.
#[tactic(auto, using(crate::proofs::RowSteps::input_clause, crate::proofs::RowSteps::input_word))]
pub fn is_clause_of(
    alloc: Global,
    inputs: &[Input],
    rows: &[(u64, Clause)],
    answers: &[Terms],
    said: &Line,
    goal: bool,
    place: usize,
    line: &Line,
) -> Result<bool, AllocError>
    ensures { IfOk result (λ is. IsTrue is ↔ IsInputOfLine (asked_inputs inputs.now)
        (rows_with rows.now answers.now) (answered_line said.now) goal
        (content_of line.now.content) (answers_of line.now.notes.answers.items)) }
{
    match &said.content {
        Content::Clause(_) => Ok(false),
        Content::Formula(formula, _) => {
            if !states(&said.just.first, goal) {
                return Ok(false);
            }
            let asks = counted(goal, said);
            let shape = &formula.shape;
            let number = said.number;
            let found = is_input_from(
                alloc, inputs, rows, answers, place, goal, shape, asks, number, line,
            )?;
            Ok(found)
        }
    }
}
