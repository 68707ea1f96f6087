// Whether a clause with answers is another one, but for the numbers of variables.
ghost use Rattle.std.specs.Prelude.{◌≡◌, ◌↔◌, IfOk, IsTrue};
ghost use Rattle.answers.specs.AnswerTrees.{IsSame};
ghost use Rattle.answers.specs.AnswerView.{answers_of};
ghost use Rattle.carried_answers.specs.Whole.{EndsWithAnswers, carried_in};
ghost use Rattle.fol_core.specs.Renumbered.{renumbered};

use crate::packing::packed_with;
use answers::Answer;
use fol_core::{Clause, renumber};
use shared_clauses::SharedClause;
use std::alloc::{AllocError, Global};
use substitutions::same_clause;

// Whether a clause has as many symbols, variables and levels as one on shared terms.
fn is_as_large(alloc: Global, clause: &Clause, shared: &SharedClause) -> Result<bool, AllocError>
    ensures { IfOk result (λ is. renumbered clause.now ≡ renumbered shared.now → IsTrue is) }
{
    let own = SharedClause::of(alloc, clause)?.measure();
    let other = shared.measure();
    Ok(own.size == other.size && own.depth == other.depth)
}

// Whether two clauses are variants.
fn are_variants(alloc: Global, left: &Clause, right: &Clause) -> Result<bool, AllocError>
    ensures { IfOk result (λ are. IsTrue are ↔ (renumbered left.now ≡ renumbered right.now)) }
{
    let left = renumber(alloc, left)?;
    let right = renumber(alloc, right)?;
    Ok(same_clause(&left, &right))
}

// Whether a clause is one on shared terms, but for the numbers of variables; that one is built only where it is as large.
fn is_shared(alloc: Global, clause: &Clause, shared: &SharedClause) -> Result<bool, AllocError>
    ensures { IfOk result (λ is. IsTrue is ↔ (renumbered clause.now ≡ renumbered shared.now)) }
{
    if !is_as_large(alloc, clause, shared)? {
        return Ok(false);
    }
    let plain = shared.plain(alloc)?;
    are_variants(alloc, clause, &plain)
}

/// Whether a clause and its answers are one behind which so many literals are answers.
pub fn is_whole(
    alloc: Global,
    clause: &Clause,
    answers: &[Answer],
    whole: &SharedClause,
    behind: usize,
) -> Result<bool, AllocError>
    requires { EndsWithAnswers whole.now behind }
    ensures { IfOk result (λ is. IsTrue is ↔ IsSame clause.now (answers_of answers.now)
        (carried_in whole.now behind).clause (carried_in whole.now behind).answers) }
{
    if answers.len() != behind {
        return Ok(false);
    }
    let given = packed_with(alloc, clause, answers)?;
    is_shared(alloc, &given, whole)
}
