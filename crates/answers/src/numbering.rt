// Clauses with answers, numbered together.
ghost use Rattle.std.specs.Prelude.{◌≡◌, ◌++◌, IfOk, OnOk, map};
ghost use Rattle.answers.specs.AnswerTrees.{numbered_clause, numbered_answers};
ghost use Rattle.answers.specs.AnswerView.{answers_of};
ghost use Rattle.answers.specs.Packed.{packed, unpacked};
ghost use Rattle.fol_core.specs.ClauseView.{literal_of};

use crate::answer::Answer;
use clause_limits::numbered_anew;
use fol_core::{Clause, Literal, Sym, Term};
use std::alloc::{AllocError, Global};

/// A clause and its answers with their variables numbered, those of the literals first. Each answer stands behind the
/// literals as one more while they are numbered, so no term is copied.
pub fn numbered_with(
    alloc: Global,
    clause: Clause,
    answers: Vec<Answer>,
) -> Result<(Clause, Vec<Answer>), AllocError>
    ensures clause { IfOk result (λ r. r.0
        ≡ numbered_clause clause (answers_of answers.items)) }
    ensures answers { IfOk result (λ r. answers_of r.1.items
        ≡ numbered_answers clause (answers_of answers.items)) }
{
    let own = clause.len();
    let mut whole = clause;
    pack(&mut whole, answers)?;
    let mut numbered = numbered_anew(alloc, whole)?;
    let behind = numbered.literals.split_off(own)?;
    let answers = unpack(alloc, behind)?;
    Ok((numbered, answers))
}

// Answers as literals behind those of a clause.
fn pack(clause: &mut Clause, answers: Vec<Answer>) -> Result<(), AllocError>
    ensures { OnOk result (clause.new ≡ clause.old ++ packed (answers_of answers.items)) }
{
    for answer in answers {
        let Answer { goal, terms } = answer;
        clause.push(Literal {
            positive: true,
            atom: Term::App(Sym(goal), terms),
        })?;
    }
    Ok(())
}

// The answers of such literals.
fn unpack(alloc: Global, literals: Vec<Literal>) -> Result<Vec<Answer>, AllocError>
    ensures { IfOk result (λ us. answers_of us.items
        ≡ unpacked (map literal_of literals.items)) }
{
    let mut answers = Vec::with_capacity(alloc, literals.len())?;
    for literal in literals {
        let Literal { atom, .. } = literal;
        if let Term::App(goal, terms) = atom {
            answers.push(Answer {
                goal: goal.0,
                terms,
            })?;
        }
    }
    Ok(answers)
}
