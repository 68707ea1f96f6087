// Words on a clause with its answers as literals behind.
ghost use Rattle.std.specs.Prelude.{◌≡◌, ◌++◌, List, IfOk, length};
ghost use Rattle.answers.specs.AnswerTrees as trees;
ghost use Rattle.answers.specs.Packed.{packed};
ghost use Rattle.carried_answers.specs.Brought.{settled};
ghost use Rattle.carried_answers.specs.Carried.{lent_answers};
ghost use Rattle.carried_answers.specs.Leading.{place_of};
ghost use Rattle.carried_answers.specs.Whole.{EndsWithAnswers, IsLedTo, is_done};
ghost use Rattle.derivation.specs.View.{later_of};
ghost use Rattle.fol_core.specs.Literals.{ClauseTree};
ghost use Rattle.inference.specs.Lent.{lent_clauses};

use crate::bringing::bring;
use crate::keeping::keep_once;
use answers::Answer;
use derivation::Later;
use fol_core::Clause;
use inference::{Followed, follow};
use shared_clauses::SharedClause;
use std::alloc::{AllocError, Global};

// The place of a word's literal.
fn place_of(word: &Later) -> u64
    ensures { result ≡ place_of (later_of word.now) }
{
    match word {
        Later::Flip(a) => *a,
        Later::Merge(a) => *a,
        Later::Xx(a) => *a,
        Later::UnitDel(a, _) => *a,
        Later::Rewrite(entry) => entry.literal,
    }
}

// The answers from a place on, each once behind a word that brings some.
fn settle(word: &Later, whole: &mut SharedClause, first: usize)
    ensures { (c : ClauseTree) (us : List trees.Answer) → whole.old ≡ c ++ packed us → first ≡ length c
        → whole.new ≡ c ++ packed (settled (later_of word.now) us) }
{
    match word {
        Later::Flip(_) => {}
        Later::Merge(_) => {}
        Later::Xx(_) => {}
        Later::UnitDel(_, _) => keep_once(whole, first),
        Later::Rewrite(_) => keep_once(whole, first),
    }
}

// Whether a word is done.
fn is_done(followed: Followed) -> bool
    ensures { result ≡ is_done followed }
{
    match followed {
        Followed::Misplaced => false,
        Followed::Differs => false,
        Followed::TooLarge => false,
        Followed::Done => true,
    }
}

/// What a word comes to on a clause behind which so many literals are answers: as many answers as it has then.
pub fn lead(
    alloc: Global,
    word: &Later,
    whole: &mut SharedClause,
    behind: usize,
    parents: &[&Clause],
    answers: &[&[Answer]],
) -> Result<Option<usize>, AllocError>
    requires many { length answers.now ≡ length parents.now }
    requires whole { EndsWithAnswers whole.old behind }
    ensures { IfOk result (IsLedTo (later_of word.now) whole.old behind (lent_clauses parents.now)
        (lent_answers answers.now) whole.new) }
{
    let before = whole.len();
    let own = before.saturating_sub(behind);
    let place = place_of(word);
    if place >= own as u64 {
        return Ok(None);
    }
    bring(alloc, word, whole, parents, answers)?;
    let pushed = whole.len();
    let all = pushed.saturating_sub(own);
    let followed = follow(alloc, word, whole, parents)?;
    if !is_done(followed) {
        whole.truncate(before);
        return Ok(None);
    }
    let led = whole.len();
    let first = led.saturating_sub(all);
    settle(word, whole, first);
    let settled = whole.len();
    let now = settled.saturating_sub(first);
    Ok(Some(now))
}
