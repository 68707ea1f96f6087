// A clause with its answers on shared terms, as words are followed on it.
ghost use Rattle.std.specs.Prelude.{◌≡◌, ◌↔◌, IfOk, IsTrue, length};
ghost use Rattle.answered_lines.specs.Lines.{IsClauseWith};
ghost use Rattle.answers.specs.AnswerView.{answers_of};
ghost use Rattle.carried_answers.specs.Carried.{FirstAs, LedBy, carried, lent_answers};
ghost use Rattle.derivation.specs.View.{content_of, first_word_of, later_of};
ghost use Rattle.inference.specs.Judged.{rule_by};
ghost use Rattle.inference.specs.Lent.{lent_clauses};

use crate::comparing::is_whole;
use crate::leading::lead;
use crate::packing::{packed_each, packed_with};
use crate::starting::apply_with;
use answers::Answer;
use derivation::{Content, First, Later};
use fol_core::Clause;
use shared_clauses::SharedClause;
use std::alloc::{AllocError, Global};
use std::marker::Model;

/// A clause with its answers, however large its terms are; contracts see both. The answers are literals behind those of the
/// clause.
#[derive(Drop)]
pub struct AnsweredClause {
    whole: SharedClause,
    behind: usize,
}

impl Model for AnsweredClause {
    ghost use Rattle.carried_answers.specs.Carried.{Carried};
    ghost use Rattle.carried_answers.specs.CarriedCodes.{coded_carried};
    ghost use Rattle.carried_answers.specs.Whole.{EndsWithAnswers, carried_in};

    ghost Value = { Carried };

    ghost coded = { coded_carried };

    ghost view = { λ a. carried_in a.whole a.behind };

    ghost invariant = { λ a. EndsWithAnswers a.whole a.behind };
}

impl AnsweredClause {
    /// A clause and its answers.
    pub fn of(
        alloc: Global,
        clause: &Clause,
        answers: &[Answer],
    ) -> Result<AnsweredClause, AllocError>
        ensures { IfOk result (λ a. a ≡ carried clause.now (answers_of answers.now)) }
    {
        let both = packed_with(alloc, clause, answers)?;
        let whole = SharedClause::of(alloc, &both)?;
        Ok(AnsweredClause {
            whole,
            behind: answers.len(),
        })
    }

    /// What the rule of a first word makes of its parents and their answers; none where it doesn't fit or nothing unifies.
    pub fn first<'a>(
        alloc: Global,
        first: &'a First,
        parents: &[&'a Clause],
        answers: &[&[Answer]],
    ) -> Result<Option<AnsweredClause>, AllocError>
        requires { length answers.now ≡ length parents.now }
        ensures { IfOk result (FirstAs (rule_by (first_word_of first.now))
            (lent_clauses parents.now) (lent_answers answers.now)) }
    {
        let packed = packed_each(alloc, answers)?;
        match apply_with(alloc, first, parents, packed)? {
            None => Ok(None),
            Some((whole, behind)) => Ok(Some(AnsweredClause { whole, behind })),
        }
    }

    /// Whether a later word is done, with the clauses that it takes and their answers; nothing is changed where it isn't.
    pub fn follow_with(
        &mut self,
        alloc: Global,
        word: &Later,
        parents: &[&Clause],
        answers: &[&[Answer]],
    ) -> Result<bool, AllocError>
        requires { length answers.now ≡ length parents.now }
        ensures { IfOk result (LedBy (later_of word.now) self.old (lent_clauses parents.now)
            (lent_answers answers.now) self.new) }
    {
        let behind = self.behind;
        // Where memory is wanting on the way, nothing behind the clause counts as an answer.
        self.behind = 0;
        match lead(alloc, word, &mut self.whole, behind, parents, answers)? {
            None => {
                self.behind = behind;
                Ok(false)
            }
            Some(now) => {
                self.behind = now;
                Ok(true)
            }
        }
    }

    /// Whether they are a line's content and answers, but for the numbers of variables.
    pub fn is(
        &self,
        alloc: Global,
        content: &Content,
        answers: &[Answer],
    ) -> Result<bool, AllocError>
        ensures { IfOk result (λ b. IsTrue b ↔ IsClauseWith (content_of content.now)
            (answers_of answers.now) self.now.clause self.now.answers) }
    {
        match content {
            Content::Formula(_, _) => Ok(false),
            Content::Clause(clause) => is_whole(alloc, clause, answers, &self.whole, self.behind),
        }
    }
}
