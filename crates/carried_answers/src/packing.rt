// Answers as literals behind those of a clause.
ghost use Rattle.std.specs.Prelude.{◌≡◌, ◌++◌, IfOk, OnOk, map};
ghost use Rattle.answers.specs.AnswerView.{answers_of};
ghost use Rattle.answers.specs.Packed.{packed};
ghost use Rattle.carried_answers.specs.Carried.{lent_answers};

use answers::Answer;
use fol_core::{Clause, Literal, Sym, Term};
use std::alloc::{AllocError, Global};

// One more literal for each.
fn pack(alloc: Global, answers: &[Answer], clause: &mut Clause) -> Result<(), AllocError>
    ensures { OnOk result (clause.new ≡ clause.old ++ packed (answers_of answers.now)) }
{
    for answer in answers {
        let terms = answer.terms.copy(alloc)?;
        clause.push(Literal {
            positive: true,
            atom: Term::App(Sym(answer.goal), terms),
        })?;
    }
    Ok(())
}

/// Answers as a clause.
pub fn packed(alloc: Global, answers: &[Answer]) -> Result<Clause, AllocError>
    ensures { IfOk result (λ c. c ≡ packed (answers_of answers.now)) }
{
    let mut clause = Clause::with_capacity(alloc, answers.len())?;
    pack(alloc, answers, &mut clause)?;
    Ok(clause)
}

/// A clause and its answers as one.
pub fn packed_with(alloc: Global, clause: &Clause, answers: &[Answer]) -> Result<Clause, AllocError>
    ensures { IfOk result (λ c. c ≡ clause.now ++ packed (answers_of answers.now)) }
{
    let mut whole = clause.copy(alloc)?;
    pack(alloc, answers, &mut whole)?;
    Ok(whole)
}

/// The answers of each of some clauses as a clause.
pub fn packed_each(alloc: Global, answers: &[&[Answer]]) -> Result<Vec<Clause>, AllocError>
    ensures { IfOk result (λ cs. cs.items ≡ map packed (lent_answers answers.now)) }
{
    let mut clauses = Vec::with_capacity(alloc, answers.len())?;
    for own in answers {
        clauses.push(packed(alloc, own)?)?;
    }
    Ok(clauses)
}
