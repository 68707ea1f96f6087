// Instances of clauses with answers.
ghost use Rattle.std.specs.Prelude.{◌≡◌, IfOk};
ghost use Rattle.answered_lines.specs.Lines.{clause_put_in, answers_put_in};
ghost use Rattle.answers.specs.AnswerView.{answers_of};

use answers::{Answer, apply_answers, each_once, numbered_with};
use fol_core::Clause;
use std::alloc::{AllocError, Global};
use substitutions::{Subst, apply_clause};

/// A clause with terms put in for its variables, and its answers with them, each once; the variables of both are numbered.
pub fn put_in(
    alloc: Global,
    values: &Subst,
    clause: &Clause,
    answers: &[Answer],
) -> Result<(Clause, Vec<Answer>), AllocError>
    ensures clause { IfOk result (λ r. r.0
        ≡ clause_put_in values.now clause.now (answers_of answers.now)) }
    ensures answers { IfOk result (λ r. answers_of r.1.items
        ≡ answers_put_in values.now clause.now (answers_of answers.now)) }
{
    let put = apply_clause(alloc, clause, values)?;
    let put_answers = apply_answers(alloc, answers, values)?;
    let (numbered, behind) = numbered_with(alloc, put, put_answers)?;
    let once = each_once(alloc, behind)?;
    Ok((numbered, once))
}
