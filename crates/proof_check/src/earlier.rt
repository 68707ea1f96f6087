// Earlier lines by their numbers.
ghost use Rattle.std.specs.Prelude.{◌≡◌, [], false, IfOk, IsTrue, MatchOption, Some};
ghost use Rattle.std.specs.Option.{option_map};
ghost use Rattle.answered_lines.specs.Laws.{AnswerNothing};
ghost use Rattle.answered_lines.specs.Lines.{answered_at, answers_of_line};
ghost use Rattle.answered_lines.specs.View.{answered_line, answered_lines_of};
ghost use Rattle.derivation.specs.Lines.{clause_at, AreClauses, is_formula_at};
ghost use Rattle.derivation.specs.Refused.{are_there};
ghost use Rattle.derivation.specs.View.{lines_of};
ghost use Rattle.inference.specs.Lent.{lent_clauses};
ghost use Rattle.proof_check.specs.Reached.{AreRising};

use derivation::{Content, Line};
use fol_core::Clause;
use std::alloc::{AllocError, Global};

/// The line of a number, among lines whose numbers rise.
pub fn line_at(earlier: &[Line], number: u64) -> Option<&Line>
    requires { AreRising (lines_of earlier.now) }
    ensures { option_map (λ l. answered_line l.now) result
        ≡ answered_at (answered_lines_of earlier.now) number }
{
    match earlier.binary_search_by_key(&number, |line| line.number) {
        Ok(place) => Some(&earlier[place]),
        Err(_) => None,
    }
}

/// Whether the line of a number has no answers, or isn't there.
#[tactic(auto, using(crate::proofs::EarlierSteps::none_there, crate::proofs::EarlierSteps::none_here))]
pub fn has_no_answers(earlier: &[Line], number: u64) -> bool
    requires { AreRising (lines_of earlier.now) }
    ensures { IsTrue result → answers_of_line (answered_lines_of earlier.now) number ≡ [] }
{
    match line_at(earlier, number) {
        None => true,
        Some(line) => line.notes.answers.is_empty(),
    }
}

/// Whether the lines of some numbers have no answers.
#[tactic(auto, using(crate::proofs::EarlierSteps::quiet_start, crate::proofs::EarlierSteps::quiet_next, crate::proofs::EarlierSteps::quiet_end))]
pub fn answer_nothing(earlier: &[Line], numbers: &[u64]) -> bool
    requires { AreRising (lines_of earlier.now) }
    ensures { IsTrue result → AnswerNothing (answered_lines_of earlier.now) numbers.now }
{
    for number in numbers {
        if !has_no_answers(earlier, *number) {
            return false;
        }
    }
    true
}

/// The clause of the line of a number.
#[tactic(auto, using(crate::proofs::EarlierSteps::clause_nowhere, crate::proofs::EarlierSteps::no_clause, crate::proofs::EarlierSteps::clause_there))]
pub fn clause_at(earlier: &[Line], number: u64) -> Option<&Clause>
    requires { AreRising (lines_of earlier.now) }
    ensures { option_map (λ c. c.now) result ≡ clause_at (lines_of earlier.now) number }
{
    match line_at(earlier, number) {
        None => None,
        Some(line) => match &line.content {
            Content::Formula(_, _) => None,
            Content::Clause(clause) => Some(clause),
        },
    }
}

/// The line of a number, where it has a formula.
#[tactic(auto, using(crate::proofs::EarlierSteps::no_formula, crate::proofs::EarlierSteps::formula_there, crate::proofs::EarlierSteps::other_there))]
pub fn formula_at(earlier: &[Line], number: u64) -> Option<&Line>
    requires { AreRising (lines_of earlier.now) }
    ensures { MatchOption result (is_formula_at (lines_of earlier.now) number ≡ false)
        (λ l. IsTrue (is_formula_at (lines_of earlier.now) number)
        × (answered_at (answered_lines_of earlier.now) number ≡ Some (answered_line l.now))) }
{
    let Some(line) = line_at(earlier, number) else {
        return None;
    };
    match &line.content {
        Content::Formula(_, _) => Some(line),
        Content::Clause(_) => None,
    }
}

/// Whether the lines of some numbers are there and have clauses.
pub fn are_there(earlier: &[Line], numbers: &[u64]) -> bool
    requires { AreRising (lines_of earlier.now) }
    ensures { result ≡ are_there (lines_of earlier.now) numbers.now }
{
    for number in numbers {
        match clause_at(earlier, *number) {
            Some(_) => {}
            None => return false,
        }
    }
    true
}

/// The clauses of some lines, lent, where they are there.
#[tactic(auto, using(crate::proofs::EarlierSteps::finding_start, crate::proofs::EarlierSteps::clauses_next, crate::proofs::EarlierSteps::clauses_missing, crate::proofs::EarlierSteps::clauses_all))]
pub fn clauses_at<'a>(
    alloc: Global,
    earlier: &'a [Line],
    numbers: &[u64],
) -> Result<Option<Vec<&'a Clause>>, AllocError>
    requires { AreRising (lines_of earlier.now) }
    ensures { IfOk result (λ o. MatchOption o (are_there (lines_of earlier.now) numbers.now ≡ false)
        (λ cs. AreClauses (lines_of earlier.now) numbers.now (lent_clauses cs.items))) }
{
    let mut found = Vec::new(alloc);
    for number in numbers {
        match clause_at(earlier, *number) {
            Some(clause) => found.push(clause)?,
            None => return Ok(None),
        }
    }
    Ok(Some(found))
}
