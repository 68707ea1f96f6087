// The lines of a proof, one after the other.
ghost use Rattle.std.specs.Prelude.{◌≡◌, ◌<◌, ℕ, Err, OnOk, length};
ghost use Rattle.answered_lines.specs.Lines.{IsRefutationWith};
ghost use Rattle.answered_lines.specs.Refused.{IsFaultWith};
ghost use Rattle.answered_lines.specs.View.{answered_lines_of, answered_rows_of, asked_of};
ghost use Rattle.fol_problem.specs.Stated.{all_said};
ghost use Rattle.derivation.specs.Lines.{is_empty_clause, IsRefutation};
ghost use Rattle.derivation.specs.View.{content_of, lines_of};
ghost use Rattle.derivation.specs.declared.row.Row.{Row};
ghost use Rattle.proof_check.specs.Reached.{Going};
ghost use Rattle.stated_lines.specs.Held.{asked_inputs, rows_with};

use crate::error::CheckError;
use crate::line::judge_line;
use answered_lines::{fault_is_one_with, lines_are_plain};
use derivation::{Content, Line, Row};
use fol_core::{Clause, Clauses, Terms};
use fol_problem::{Input, Problem};
use std::alloc::Global;

// Whether a content is the empty clause.
fn is_empty_clause(content: &Content) -> bool
    ensures { result ≡ is_empty_clause (content_of content.now) }
{
    match content {
        Content::Formula(_, _) => false,
        Content::Clause(clause) => clause.len() == 0,
    }
}

// The lines behind the first, which is one.
#[tactic(auto, using(crate::proofs::CheckSteps::going_rising, crate::proofs::CheckSteps::going_next, crate::proofs::CheckSteps::going_fault, crate::proofs::CheckSteps::going_empty, crate::proofs::CheckSteps::going_other))]
fn check_behind(
    alloc: Global,
    inputs: &[Input],
    rows: &[(u64, Clause)],
    answers: &[Terms],
    lines: &[Line],
) -> Result<(), CheckError>
    requires some { 0 < length lines.now }
    requires first { Going (asked_inputs inputs.now) (rows_with rows.now answers.now) lines.now 1 }
    ensures accepted { OnOk result (IsRefutationWith (asked_inputs inputs.now)
        (rows_with rows.now answers.now) (answered_lines_of lines.now)) }
    ensures refused { (line : ℕ) (row : Row) → result ≡ Err (CheckError.NotAccepted line row)
        → IsFaultWith (asked_inputs inputs.now) (rows_with rows.now answers.now)
        (answered_lines_of lines.now) line row }
{
    for i in 1..lines.len() {
        let last = Some(lines[i - 1].number);
        match judge_line(alloc, inputs, rows, answers, &lines[..i], last, &lines[i])? {
            None => {}
            Some(row) => {
                return Err(CheckError::NotAccepted {
                    line: lines[i].number,
                    row,
                });
            }
        }
    }
    let end = &lines[lines.len() - 1];
    if is_empty_clause(&end.content) {
        Ok(())
    } else {
        Err(CheckError::NotAccepted {
            line: end.number,
            row: Row::NotEmpty,
        })
    }
}

// Whether lines are a refutation, whatever it shows.
#[tactic(auto, using(crate::proofs::CheckSteps::none_given, crate::proofs::CheckSteps::first_fault, crate::proofs::CheckSteps::going_start))]
fn check_lines(
    alloc: Global,
    problem: &Problem,
    clauses: &Clauses,
    lines: &[Line],
) -> Result<(), CheckError>
    ensures accepted { OnOk result (IsRefutationWith (asked_of problem.now)
        (answered_rows_of clauses.now) (answered_lines_of lines.now)) }
    ensures refused { (line : ℕ) (row : Row) → result ≡ Err (CheckError.NotAccepted line row)
        → IsFaultWith (asked_of problem.now) (answered_rows_of clauses.now)
        (answered_lines_of lines.now) line row }
{
    let inputs = problem.inputs.as_slice();
    let rows = clauses.clauses.as_slice();
    let answers = clauses.answers.as_slice();
    if lines.len() == 0 {
        return Err(CheckError::NotAccepted {
            line: 0,
            row: Row::NoLines,
        });
    }
    match judge_line(alloc, inputs, rows, answers, &[], None, &lines[0])? {
        None => check_behind(alloc, inputs, rows, answers, lines),
        Some(row) => Err(CheckError::NotAccepted {
            line: lines[0].number,
            row,
        }),
    }
}

/// Whether lines are a refutation of a problem with these clauses, what its goals ask for and the answers counted; else the first
/// bad line and its row. Answers change nothing of what is derived: so it is a refutation without them.
#[tactic(auto, using(crate::proofs::PlainSteps::plainly_refuted))]
pub fn check(
    alloc: Global,
    problem: &Problem,
    clauses: &Clauses,
    lines: &[Line],
) -> Result<(), CheckError>
    ensures accepted { OnOk result (IsRefutationWith (asked_of problem.now)
        (answered_rows_of clauses.now) (answered_lines_of lines.now)) }
    ensures plain { OnOk result (IsRefutation
        (all_said problem.now.inputs.items) clauses.now.clauses.items (lines_of lines.now)) }
    ensures refused { (line : ℕ) (row : Row) → result ≡ Err (CheckError.NotAccepted line row)
        → IsFaultWith (asked_of problem.now) (answered_rows_of clauses.now)
        (answered_lines_of lines.now) line row }
    ensures exact { (line : ℕ) (row : Row) → result ≡ Err (CheckError.NotAccepted line row)
        → ¬ IsRefutationWith (asked_of problem.now) (answered_rows_of clauses.now)
        (answered_lines_of lines.now) }
{
    fault_is_one_with();
    lines_are_plain();
    check_lines(alloc, problem, clauses, lines)
}
