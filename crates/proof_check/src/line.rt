// Whether a line is one of a derivation, behind earlier ones.
ghost use Rattle.std.specs.Prelude.{◌↔◌, IsTrue, IfOk, map};
ghost use Rattle.std.specs.Option.{option_map};
ghost use Rattle.answered_lines.specs.View.{answered_line, answered_lines_of};
ghost use Rattle.answers.specs.AnswerView.{answers_of};
ghost use Rattle.derivation.specs.Lines.{IsAbove};
ghost use Rattle.derivation.specs.View.{first_word_of, later_of, content_of, lines_of};
ghost use Rattle.proof_check.specs.Found.{StatedAs, InputAs, LineAs, FoundWith};
ghost use Rattle.proof_check.specs.Reached.{AreRising};
ghost use Rattle.stated_lines.specs.Held.{asked_inputs, rows_with};

use crate::answering::{infer_with, instantiate_with};
use crate::earlier::formula_at;
use derivation::{First, Line, Row};
use fol_core::{Clause, Terms};
use fol_problem::Input;
use stated_lines::{is_clause_of, is_stated};
use std::alloc::{AllocError, Global};

// A line that names a formula.
fn stated(inputs: &[Input], goal: bool, line: &Line) -> Option<Row>
    ensures { StatedAs goal (asked_inputs inputs.now) (map later_of line.now.just.steps.items)
        (content_of line.now.content) (option_map (λ places. places.items) line.now.notes.asks)
        result }
{
    if !is_stated(inputs, goal, line) {
        return Some(Row::NoFormula);
    }
    if !line.just.steps.is_empty() {
        return Some(Row::OtherClause);
    }
    None
}

// Where the clause of a line stands among those of the formulas, if the lines are all formulas and then their clauses.
fn place_among(inputs: &[Input], number: u64) -> usize {
    number.saturating_sub(inputs.len() as u64).saturating_sub(1) as usize
}

// A line that names a clause of a formula.
fn input(
    alloc: Global,
    inputs: &[Input],
    rows: &[(u64, Clause)],
    answers: &[Terms],
    earlier: &[Line],
    goal: bool,
    number: u64,
    line: &Line,
) -> Result<Option<Row>, AllocError>
    requires { AreRising (lines_of earlier.now) }
    ensures { IfOk result (InputAs (asked_inputs inputs.now) (rows_with rows.now answers.now)
        (answered_lines_of earlier.now) goal number (map later_of line.now.just.steps.items)
        (content_of line.now.content) (answers_of line.now.notes.answers.items)) }
{
    let Some(said) = formula_at(earlier, number) else {
        return Ok(Some(Row::NoParent));
    };
    let place = place_among(inputs, line.number);
    if !is_clause_of(alloc, inputs, rows, answers, said, goal, place, line)? {
        return Ok(Some(Row::NoClause));
    }
    if !line.just.steps.is_empty() {
        return Ok(Some(Row::OtherClause));
    }
    Ok(None)
}

// The words of a line.
fn words(
    alloc: Global,
    inputs: &[Input],
    rows: &[(u64, Clause)],
    answers: &[Terms],
    earlier: &[Line],
    line: &Line,
) -> Result<Option<Row>, AllocError>
    requires { AreRising (lines_of earlier.now) }
    ensures { IfOk result (LineAs (asked_inputs inputs.now) (rows_with rows.now answers.now)
        (answered_lines_of earlier.now) (first_word_of line.now.just.first)
        (map later_of line.now.just.steps.items) (content_of line.now.content)
        (option_map (λ places. places.items) line.now.notes.asks)
        (answers_of line.now.notes.answers.items)) }
{
    match &line.just.first {
        First::Assumption => Ok(stated(inputs, false, line)),
        First::Goal => Ok(stated(inputs, true, line)),
        First::Clausify(n) => input(alloc, inputs, rows, answers, earlier, false, *n, line),
        First::Deny(n) => input(alloc, inputs, rows, answers, earlier, true, *n, line),
        First::Copy(_) => infer_with(alloc, earlier, line),
        First::BackRewrite(_) => infer_with(alloc, earlier, line),
        First::BackUnitDel(_) => infer_with(alloc, earlier, line),
        First::Resolve(_, _) => infer_with(alloc, earlier, line),
        First::Hyper(_, _) => infer_with(alloc, earlier, line),
        First::Ur(_, _) => infer_with(alloc, earlier, line),
        First::Factor(_, _, _) => infer_with(alloc, earlier, line),
        First::Para(_) => infer_with(alloc, earlier, line),
        First::XxRes(_, _) => infer_with(alloc, earlier, line),
        First::Instantiate(n, subst) => instantiate_with(alloc, earlier, *n, subst, line),
    }
}

// Whether a number is above the last one.
fn is_above(last: Option<u64>, number: u64) -> bool
    ensures { IsTrue result ↔ IsAbove last number }
{
    match last {
        None => true,
        Some(m) => m < number,
    }
}

/// Whether a line is one, behind earlier ones of which the last has this number; else the row.
pub fn judge_line(
    alloc: Global,
    inputs: &[Input],
    rows: &[(u64, Clause)],
    answers: &[Terms],
    earlier: &[Line],
    last: Option<u64>,
    line: &Line,
) -> Result<Option<Row>, AllocError>
    requires { AreRising (lines_of earlier.now) }
    ensures { IfOk result (FoundWith (asked_inputs inputs.now) (rows_with rows.now answers.now)
        (answered_lines_of earlier.now) last (answered_line line.now)) }
{
    if !is_above(last, line.number) {
        return Ok(Some(Row::NotAbove));
    }
    words(alloc, inputs, rows, answers, earlier, line)
}
