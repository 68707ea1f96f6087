// How large a clause is with its answers: their terms count as literals.
ghost use Rattle.std.specs.Prelude.{◌≡◌, ◌<◌, ◌+◌, MatchOption, nat_lt, nat_le};
ghost use Rattle.answers.specs.AnswerTrees.{riders, whole};
ghost use Rattle.answers.specs.AnswerView.{answers_of};
ghost use Rattle.clause_limits.specs.Sizes.{clause_size, clause_depth, is_too_large};
ghost use Rattle.fol_core.specs.Sizes.{sizes_of, depths_of};
ghost use Rattle.fol_core.specs.TermView.{tree_list};
ghost use Rattle.fol_core.specs.Tree.{trees_of};

use crate::answer::Answer;
use clause_limits::{
    MOST_CLAUSE_LEVELS, MOST_CLAUSE_SYMBOLS, is_clause_deeper, is_deeper, left_behind,
    left_behind_clause,
};
use fol_core::{Clause, Term};

/// Whether a clause is too large with its answers: levels are counted only where it has so many symbols and variables that
/// they may be too many.
#[tactic(auto, using(crate::proofs::Measures::few_whole, crate::proofs::Measures::large_whole))]
pub fn is_whole_too_large(clause: &Clause, answers: &[Answer]) -> bool
    ensures { result ≡ is_too_large (whole clause.now (answers_of answers.now)) }
{
    if is_whole_within(clause, answers, MOST_CLAUSE_LEVELS) {
        return false;
    }
    if is_clause_deeper(clause, MOST_CLAUSE_LEVELS) {
        return true;
    }
    if are_answers_deeper(answers, MOST_CLAUSE_LEVELS) {
        return true;
    }
    !is_whole_within(clause, answers, MOST_CLAUSE_SYMBOLS)
}

// Whether a clause has no more symbols and variables than these, with its answers.
#[tactic(auto, using(crate::proofs::Measures::within_both, crate::proofs::Measures::over_first))]
fn is_whole_within(clause: &Clause, answers: &[Answer], room: u64) -> bool
    ensures { result ≡ nat_le (clause_size (whole clause.now (answers_of answers.now))) room }
{
    match left_behind_clause(clause, room) {
        Some(left) => left_behind_answers(answers, left).is_some(),
        None => false,
    }
}

// Whether answers have more levels.
#[tactic(auto, using(crate::proofs::Measures::answers_deeper_here, crate::proofs::Measures::answers_deeper_behind, crate::proofs::Measures::answers_deeper_end))]
fn are_answers_deeper(answers: &[Answer], levels: u64) -> bool
    ensures { result ≡ nat_lt levels (clause_depth (riders (answers_of answers.now))) }
{
    for answer in answers {
        if are_deeper(answer.terms.as_slice(), levels) {
            return true;
        }
    }
    false
}

// Whether terms have.
#[tactic(auto, using(clause_limits::proofs::Measures::deeper_here, clause_limits::proofs::Measures::deeper_behind, clause_limits::proofs::Measures::deeper_end))]
fn are_deeper(terms: &[Term], levels: u64) -> bool
    ensures { result ≡ nat_lt levels (depths_of (trees_of (tree_list terms.now))) }
{
    for term in terms {
        if is_deeper(term, levels) {
            return true;
        }
    }
    false
}

// How many symbols and variables are left of a number behind those of answers.
#[tactic(auto, using(crate::proofs::Measures::answers_sizes_next, crate::proofs::Measures::answers_sizes_end))]
fn left_behind_answers(answers: &[Answer], room: u64) -> Option<u64>
    ensures { MatchOption result (room < clause_size (riders (answers_of answers.now)))
        (λ left. left + clause_size (riders (answers_of answers.now)) ≡ room) }
{
    let mut left = room;
    for answer in answers {
        match left_behind_terms(answer.terms.as_slice(), left) {
            Some(rest) => left = rest,
            None => return None,
        }
    }
    Some(left)
}

// And behind those of terms.
#[tactic(auto, using(clause_limits::proofs::Measures::sizes_next, clause_limits::proofs::Measures::sizes_end))]
fn left_behind_terms(terms: &[Term], room: u64) -> Option<u64>
    ensures { MatchOption result (room < sizes_of (trees_of (tree_list terms.now)))
        (λ left. left + sizes_of (trees_of (tree_list terms.now)) ≡ room) }
{
    let mut left = room;
    for term in terms {
        match left_behind(term, left) {
            Some(rest) => left = rest,
            None => return None,
        }
    }
    Some(left)
}
