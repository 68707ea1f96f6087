// The answers of a unit or a rule behind a clause with its own, while a word uses it.
ghost use Rattle.std.specs.Prelude.{◌≡◌, ◌<◌, ℕ, List, OnOk, length};
ghost use Rattle.answers.specs.AnswerView.{answers_of};
ghost use Rattle.carried_answers.specs.Brought.{BringsBehind, IsUsedAt};
ghost use Rattle.carried_answers.specs.Carried.{lent_answers};
ghost use Rattle.carried_answers.specs.Leading.{place_of};
ghost use Rattle.derivation.specs.Later.{rewritten, unit_deleted};
ghost use Rattle.derivation.specs.View.{later_of};
ghost use Rattle.fol_core.specs.TermView.{tree_of};
ghost use Rattle.inference.specs.Lent.{lent_clauses};

use crate::fresh::fresh_number;
use crate::packing::packed;
use answers::Answer;
use derivation::{Later, literal_at};
use fol_core::{Clause, Term};
use inference::rule_sides;
use shared_clauses::SharedClause;
use std::alloc::{AllocError, Global};

// By the match of a term onto the one at a path.
fn bring_by(
    alloc: Global,
    whole: &mut SharedClause,
    place: usize,
    path: &[u64],
    general: &Term,
    answers: &[Answer],
) -> Result<(), AllocError>
    requires { place < length whole.old }
    ensures { OnOk result (IsUsedAt whole.old place path.now (tree_of general.now)
        (answers_of answers.now) whole.new) }
{
    if answers.is_empty() {
        return Ok(());
    }
    let used = packed(alloc, answers)?;
    let fresh = fresh_number(alloc, whole)?;
    whole.push_used(alloc, place, path, general, &used, fresh)
}

// Those of a unit.
fn bring_unit(
    alloc: Global,
    whole: &mut SharedClause,
    a: u64,
    parents: &[&Clause],
    answers: &[&[Answer]],
) -> Result<(), AllocError>
    requires many { length answers.now ≡ length parents.now }
    requires place { a < length whole.old }
    ensures { (n : ℕ) → OnOk result (BringsBehind (unit_deleted a n) whole.old
        (lent_clauses parents.now) (lent_answers answers.now) whole.new) }
{
    if parents.len() != 1 {
        return Ok(());
    }
    match literal_at(parents[0], 0) {
        None => Ok(()),
        Some(literal) => bring_by(alloc, whole, a as usize, &[], &literal.atom, answers[0]),
    }
}

// Those of a rule.
fn bring_rule(
    alloc: Global,
    whole: &mut SharedClause,
    a: u64,
    path: &[u64],
    parents: &[&Clause],
    answers: &[&[Answer]],
) -> Result<(), AllocError>
    requires many { length answers.now ≡ length parents.now }
    requires place { a < length whole.old }
    ensures { (n : ℕ) → OnOk result (BringsBehind (rewritten n a path.now) whole.old
        (lent_clauses parents.now) (lent_answers answers.now) whole.new) }
{
    if parents.len() != 1 {
        return Ok(());
    }
    match rule_sides(parents[0]) {
        None => Ok(()),
        Some((left, _)) => bring_by(alloc, whole, a as usize, path, left, answers[0]),
    }
}

/// Those of what a word uses, if it leads on from the clause.
pub fn bring(
    alloc: Global,
    word: &Later,
    whole: &mut SharedClause,
    parents: &[&Clause],
    answers: &[&[Answer]],
) -> Result<(), AllocError>
    requires many { length answers.now ≡ length parents.now }
    requires place { place_of (later_of word.now) < length whole.old }
    ensures { OnOk result (BringsBehind (later_of word.now) whole.old (lent_clauses parents.now)
        (lent_answers answers.now) whole.new) }
{
    match word {
        Later::Flip(_) => Ok(()),
        Later::Merge(_) => Ok(()),
        Later::Xx(_) => Ok(()),
        Later::UnitDel(a, _) => bring_unit(alloc, whole, *a, parents, answers),
        Later::Rewrite(entry) => {
            let path = entry.path.as_slice();
            bring_rule(alloc, whole, entry.literal, path, parents, answers)
        }
    }
}
