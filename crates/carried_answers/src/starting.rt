// What a rule makes of its parents and their answers, as one clause.
ghost use Rattle.std.specs.Prelude.{◌≡◌, ◌++◌, List, IfOk, OnOk, length, map};
ghost use Rattle.answers.specs.AnswerTrees.{Answer};
ghost use Rattle.answers.specs.Packed.{packed};
ghost use Rattle.carried_answers.specs.Begun.{IsBegun, each_whole};
ghost use Rattle.carried_answers.specs.Whole.{IsFirst};
ghost use Rattle.derivation.specs.View.{first_word_of};
ghost use Rattle.inference.specs.Judged.{rule_by};
ghost use Rattle.inference.specs.Left.{all_left, all_whole};
ghost use Rattle.inference.specs.Lent.{lent_clauses};
ghost use Rattle.substitutions.specs.Bindings.{by_bindings};
ghost use Rattle.term_unifiers.specs.Renamed.{own_among};

use crate::keeping::keep_once;
use derivation::First;
use fol_core::Clause;
use inference::{Applied, Left, Premises, apply_rule};
use shared_clauses::SharedClause;
use std::alloc::{AllocError, Global};

// All literals of a clause are left.
fn leave_clause<'a>(
    clause: &'a Clause,
    parent: u64,
    left: &mut Vec<Left<'a>>,
) -> Result<(), AllocError>
    ensures { OnOk result (all_left left.new.items ≡ all_left left.old.items
        ++ all_whole parent clause.now) }
{
    for literal in &clause.literals {
        left.push(Left {
            parent,
            literal,
            change: None,
        })?;
    }
    Ok(())
}

// Those of each of some clauses, as of parents in turn.
fn leave_each<'a>(clauses: &'a [Clause], left: &mut Vec<Left<'a>>) -> Result<(), AllocError>
    ensures { OnOk result (all_left left.new.items ≡ all_left left.old.items
        ++ each_whole 0 clauses.now) }
{
    for (i, clause) in clauses.iter().enumerate() {
        leave_clause(clause, i as u64, left)?;
    }
    Ok(())
}

// What is left, lent for a shorter time.
fn lent_again<'a: 'b, 'b>(alloc: Global, left: &[Left<'a>]) -> Result<Vec<Left<'b>>, AllocError>
    ensures { IfOk result (λ ls. all_left ls.items ≡ all_left left.now) }
{
    let mut again: Vec<Left<'b>> = Vec::with_capacity(alloc, left.len())?;
    for one in left {
        again.push(*one)?;
    }
    Ok(again)
}

// What is left of parents under a unifier with their answers behind, which are clauses here; and how many there are, each once.
fn begin<'a: 'b, 'b>(
    alloc: Global,
    premises: Premises<'a>,
    answers: &'b [Clause],
) -> Result<(SharedClause, usize), AllocError>
    ensures { (lists : List (List Answer)) → answers.now ≡ map packed lists → IfOk result (λ r.
        IsBegun (own_among premises.entry.many (by_bindings premises.entry.unifier))
        (all_left premises.entry.left.items) lists r.0 r.1) }
{
    let Premises {
        unifier,
        many,
        left,
    } = premises;
    let mut all: Vec<Left<'b>> = lent_again(alloc, left.as_slice())?;
    let own = all.len();
    leave_each(answers, &mut all)?;
    let mut whole = SharedClause::of_left(alloc, &unifier, many, all.as_slice())?;
    keep_once(&mut whole, own);
    let long = whole.len();
    let behind = long.saturating_sub(own);
    Ok((whole, behind))
}

/// What a rule makes of parents and their answers, which are clauses here, and how many answers that has; none where it doesn't fit
/// or nothing unifies.
pub fn apply_with<'a>(
    alloc: Global,
    first: &'a First,
    parents: &[&'a Clause],
    answers: Vec<Clause>,
) -> Result<Option<(SharedClause, usize)>, AllocError>
    ensures { (lists : List (List Answer)) → length lists ≡ length parents.now
        → answers.items ≡ map packed lists → IfOk result (IsFirst
        (rule_by (first_word_of first.now)) (lent_clauses parents.now) lists) }
{
    match apply_rule(alloc, first, parents)? {
        Applied::Unfit => Ok(None),
        Applied::Apart => Ok(None),
        Applied::To(premises) => {
            let begun = begin(alloc, premises, answers.as_slice())?;
            Ok(Some(begun))
        }
    }
}
