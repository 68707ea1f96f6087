// Whether a line is what its words make of earlier ones.
ghost use Rattle.std.specs.Prelude.{◌≡◌, ◌↔◌, ◌≤◌, ◌∷◌, [], List, Some, false, IsTrue, IfOk, length, map};
ghost use Rattle.std.specs.List.{flat_map};
ghost use Rattle.derivation.specs.Later.{later_parents};
ghost use Rattle.derivation.specs.Lines.{LineTree, IsClause, AreClauses};
ghost use Rattle.derivation.specs.Refused.{are_there, all_parents};
ghost use Rattle.derivation.specs.View.{first_word_of, later_of, content_of, lines_of};
ghost use Rattle.derivation.specs.declared.row.Row.TheVariants.{OtherClause};
ghost use Rattle.fol_core.specs.Literals.{ClauseTree};
ghost use Rattle.fol_core.specs.Renumbered.{renumbered};
ghost use Rattle.inference.specs.Judged.{inference_by, parents_by};
ghost use Rattle.inference.specs.Lent.{lent_clauses};
ghost use Rattle.inference.specs.Measured.{clause_measured};
ghost use Rattle.proof_check.specs.Found.{AfterAs, InferredAs, words_from};
ghost use Rattle.proof_check.specs.Reached.{AreRising};

use crate::earlier::{are_there, clauses_at};
use crate::sizes::may_be;
use clause_limits::{Measure, is_too_large};
use derivation::{Content, First, Just, Later, Line, Row, Satellite};
use fol_core::Clause;
use inference::{Followed, Judged, LargeConclusion, follow, judge};
use shared_clauses::SharedClause;
use stated_lines::is_clause;
use std::alloc::{AllocError, Global};

/// The numbers of the clauses that a word takes.
pub fn later_numbers(alloc: Global, word: &Later) -> Result<Vec<u64>, AllocError>
    ensures { IfOk result (λ ns. ns.items ≡ later_parents (later_of word.now)) }
{
    let mut numbers = Vec::new(alloc);
    match word {
        Later::UnitDel(_, n) => numbers.push(*n)?,
        Later::Rewrite(entry) => numbers.push(entry.rule)?,
        Later::Flip(_) | Later::Merge(_) | Later::Xx(_) => {}
    }
    Ok(numbers)
}

/// Whether all clauses are there that words take.
#[tactic(auto, using(crate::proofs::InferSteps::later_missing, crate::proofs::InferSteps::later_on))]
pub fn later_there(alloc: Global, earlier: &[Line], words: &[Later]) -> Result<bool, AllocError>
    requires { AreRising (lines_of earlier.now) }
    ensures { IfOk result (λ there. there ≡ are_there (lines_of earlier.now)
        (flat_map later_parents (map later_of words.now))) }
{
    for word in words {
        let numbers = later_numbers(alloc, word)?;
        if !are_there(earlier, numbers.as_slice()) {
            return Ok(false);
        }
    }
    Ok(true)
}

// Whether a content is a clause on shared terms, but for the numbers of variables. It is built only where it is as large as the
// content and has no more levels.
#[tactic(auto, using(crate::proofs::InferSteps::other_clause))]
fn is_shared_clause(
    alloc: Global,
    content: &Content,
    shared: &SharedClause,
) -> Result<bool, AllocError>
    ensures { IfOk result (λ is. IsTrue is ↔ IsClause (content_of content.now) shared.now) }
{
    if !may_be(content, shared.measure()) {
        return Ok(false);
    }
    let clause = shared.plain(alloc)?;
    is_clause(alloc, content, &clause)
}

/// Whether words lead from a clause on shared terms to a content.
#[tactic(auto, using(crate::proofs::InferSteps::following_start, crate::proofs::InferSteps::following_made, crate::proofs::InferSteps::following_misplaced, crate::proofs::InferSteps::following_differs, crate::proofs::InferSteps::following_never, crate::proofs::InferSteps::following_missing, crate::proofs::InferSteps::following_ends, crate::proofs::InferSteps::following_other))]
pub fn after_shared(
    alloc: Global,
    earlier: &[Line],
    words: &[Later],
    shared: SharedClause,
    content: &Content,
) -> Result<Option<Row>, AllocError>
    requires { AreRising (lines_of earlier.now) }
    ensures { IfOk result (AfterAs (lines_of earlier.now) (map later_of words.now) shared
        (content_of content.now)) }
{
    let mut shared = shared;
    for word in words {
        let numbers = later_numbers(alloc, word)?;
        let Some(parents) = clauses_at(alloc, earlier, numbers.as_slice())? else {
            return Ok(Some(Row::NoParent));
        };
        match follow(alloc, word, &mut shared, parents.as_slice())? {
            Followed::Misplaced => return Ok(Some(Row::Misplaced)),
            Followed::Differs => return Ok(Some(Row::Differs)),
            // No clause is too large for shared terms.
            Followed::TooLarge => return Ok(Some(Row::Differs)),
            Followed::Done => {}
        }
    }
    if is_shared_clause(alloc, content, &shared)? {
        Ok(None)
    } else {
        Ok(Some(Row::OtherClause))
    }
}

// Whether words from one on lead from a plain clause to a content, on shared terms.
fn after_from(
    alloc: Global,
    earlier: &[Line],
    words: &[Later],
    first: usize,
    clause: &Clause,
    content: &Content,
) -> Result<Option<Row>, AllocError>
    requires rising { AreRising (lines_of earlier.now) }
    requires first { first ≤ length words.now }
    ensures { IfOk result (AfterAs (lines_of earlier.now) (words_from words.now first) clause.now
        (content_of content.now)) }
{
    let shared = SharedClause::of(alloc, clause)?;
    after_shared(alloc, earlier, &words[first..], shared, content)
}

/// Whether words lead from a clause to a content: on shared terms from where it becomes too large.
#[tactic(auto, using(crate::proofs::InferSteps::following_start, crate::proofs::InferSteps::following_made, crate::proofs::InferSteps::following_misplaced, crate::proofs::InferSteps::following_differs, crate::proofs::InferSteps::following_missing, crate::proofs::InferSteps::following_ends, crate::proofs::InferSteps::following_other, crate::proofs::InferSteps::following_shared))]
pub fn after(
    alloc: Global,
    earlier: &[Line],
    words: &[Later],
    clause: Clause,
    content: &Content,
) -> Result<Option<Row>, AllocError>
    requires { AreRising (lines_of earlier.now) }
    ensures { IfOk result (AfterAs (lines_of earlier.now) (map later_of words.now) clause
        (content_of content.now)) }
{
    let mut clause = clause;
    for (i, word) in words.iter().enumerate() {
        if is_too_large(&clause) {
            return after_from(alloc, earlier, words, i, &clause, content);
        }
        let numbers = later_numbers(alloc, word)?;
        let Some(parents) = clauses_at(alloc, earlier, numbers.as_slice())? else {
            return Ok(Some(Row::NoParent));
        };
        match follow(alloc, word, &mut clause, parents.as_slice())? {
            Followed::Misplaced => return Ok(Some(Row::Misplaced)),
            Followed::Differs => return Ok(Some(Row::Differs)),
            Followed::TooLarge => {
                return after_from(alloc, earlier, words, i, &clause, content);
            }
            Followed::Done => {}
        }
    }
    if is_clause(alloc, content, &clause)? {
        Ok(None)
    } else {
        Ok(Some(Row::OtherClause))
    }
}

/// Whether a content may be what words make of a clause that isn't built: not where no word follows and it is larger than the
/// content, or smaller.
#[tactic(auto, using(crate::proofs::InferSteps::other_size))]
pub fn may_lead(words: &[Later], measure: Measure, content: &Content) -> bool
    ensures { result ≡ false → (d : ClauseTree) → measure ≡ clause_measured d
        → (ls : List LineTree) → AfterAs ls (map later_of words.now) d (content_of content.now)
        (Some OtherClause) }
{
    !words.is_empty() || may_be(content, measure)
}

// Whether words lead from a conclusion that isn't built to a content.
#[tactic(auto, using(crate::proofs::Alike::after_conclusion))]
fn after_large(
    alloc: Global,
    earlier: &[Line],
    words: &[Later],
    large: &LargeConclusion,
    content: &Content,
) -> Result<Option<Row>, AllocError>
    requires { AreRising (lines_of earlier.now) }
    ensures { IfOk result (AfterAs (lines_of earlier.now) (map later_of words.now)
        (renumbered large.now) (content_of content.now)) }
{
    if !may_lead(words, large.measure(), content) {
        return Ok(Some(Row::OtherClause));
    }
    let shared = SharedClause::of_conclusion(alloc, large)?;
    after_shared(alloc, earlier, words, shared, content)
}

// The numbers of the lines that a first word takes; of the words without a rule none.
#[tactic(auto, using(crate::proofs::InferSteps::numbers_next, crate::proofs::InferSteps::numbers_end))]
fn satellite_numbers(
    alloc: Global,
    nucleus: u64,
    satellites: &[Satellite],
) -> Result<Vec<u64>, AllocError>
    ensures { IfOk result (λ ns. ns.items ≡ nucleus ∷ map (λ s. s.clause) satellites.now) }
{
    let mut numbers = Vec::new(alloc);
    numbers.push(nucleus)?;
    for s in satellites {
        numbers.push(s.clause)?;
    }
    Ok(numbers)
}

fn one_number(alloc: Global, n: u64) -> Result<Vec<u64>, AllocError>
    ensures { IfOk result (λ ns. ns.items ≡ n ∷ []) }
{
    let mut numbers = Vec::new(alloc);
    numbers.push(n)?;
    Ok(numbers)
}

fn two_numbers(alloc: Global, n: u64, m: u64) -> Result<Vec<u64>, AllocError>
    ensures { IfOk result (λ ns. ns.items ≡ n ∷ m ∷ []) }
{
    let mut numbers = Vec::new(alloc);
    numbers.push(n)?;
    numbers.push(m)?;
    Ok(numbers)
}

/// The numbers of the clauses that a first word takes.
pub fn parent_numbers(alloc: Global, first: &First) -> Result<Vec<u64>, AllocError>
    ensures { IfOk result (λ ns. ns.items ≡ parents_by (first_word_of first.now)) }
{
    match first {
        First::Assumption => Ok(Vec::new(alloc)),
        First::Goal => Ok(Vec::new(alloc)),
        First::Clausify(_) => Ok(Vec::new(alloc)),
        First::Deny(_) => Ok(Vec::new(alloc)),
        First::Copy(n) => one_number(alloc, *n),
        First::BackRewrite(n) => one_number(alloc, *n),
        First::BackUnitDel(n) => one_number(alloc, *n),
        First::Resolve(n, satellite) => two_numbers(alloc, *n, satellite.clause),
        First::Hyper(n, satellites) => satellite_numbers(alloc, *n, satellites.as_slice()),
        First::Ur(n, satellites) => satellite_numbers(alloc, *n, satellites.as_slice()),
        First::Factor(n, _, _) => one_number(alloc, *n),
        First::Para(para) => two_numbers(alloc, para.from, para.into),
        First::XxRes(n, _) => one_number(alloc, *n),
        First::Instantiate(_, _) => Ok(Vec::new(alloc)),
    }
}

// A rule on its parents and the words behind it.
#[tactic(auto, using(crate::proofs::InferSteps::rule_misplaced, crate::proofs::InferSteps::rule_differs, crate::proofs::InferSteps::rule_after, crate::proofs::InferSteps::rule_after_large))]
fn rule_and_words(
    alloc: Global,
    earlier: &[Line],
    just: &Just,
    parents: &[&Clause],
    content: &Content,
) -> Result<Option<Row>, AllocError>
    requires rising { AreRising (lines_of earlier.now) }
    requires parents { AreClauses (lines_of earlier.now)
        (parents_by (first_word_of just.now.first)) (lent_clauses parents.now) }
    requires there { IsTrue (are_there (lines_of earlier.now)
        (all_parents (inference_by (first_word_of just.now.first))
        (map later_of just.now.steps.items))) }
    ensures { IfOk result (InferredAs (lines_of earlier.now) (first_word_of just.now.first)
        (map later_of just.now.steps.items) (content_of content.now)) }
{
    match judge(alloc, &just.first, parents)? {
        Judged::Unfit => Ok(Some(Row::Misplaced)),
        Judged::Apart => Ok(Some(Row::Differs)),
        Judged::Small(small) => {
            let clause = small.into_clause();
            after(alloc, earlier, just.steps.as_slice(), clause, content)
        }
        Judged::Large(large) => {
            after_large(alloc, earlier, just.steps.as_slice(), &large, content)
        }
    }
}

/// Whether a line's content is what its rule and words make of earlier lines.
#[tactic(auto, using(crate::proofs::InferSteps::parents_missing, crate::proofs::InferSteps::words_missing, crate::proofs::InferSteps::all_there))]
pub fn infer(
    alloc: Global,
    earlier: &[Line],
    just: &Just,
    content: &Content,
) -> Result<Option<Row>, AllocError>
    requires { AreRising (lines_of earlier.now) }
    ensures { IfOk result (InferredAs (lines_of earlier.now) (first_word_of just.now.first)
        (map later_of just.now.steps.items) (content_of content.now)) }
{
    let numbers = parent_numbers(alloc, &just.first)?;
    let Some(parents) = clauses_at(alloc, earlier, numbers.as_slice())? else {
        return Ok(Some(Row::NoParent));
    };
    if !later_there(alloc, earlier, just.steps.as_slice())? {
        return Ok(Some(Row::NoParent));
    }
    rule_and_words(alloc, earlier, just, parents.as_slice(), content)
}
