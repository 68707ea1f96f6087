// The words behind the first one of a line.
ghost use Rattle.std.specs.Prelude.{◌≡◌, ◌<◌, ◌∷◌, ◌++◌, [], List, Err, IfOk, OnOk, if◌then◌else◌, length, map};
ghost use Rattle.derivation.specs.Later.{LaterWord, rewritten, flipped, merged, reflexive, unit_deleted};
ghost use Rattle.derivation.specs.View.{later_of};
ghost use Rattle.proof_words.specs.Spelling.{Spelling, passed_then, complete, words, rewritings, behind_step_name, behind_rewritings, one_more, no_more, words_outcome, reads, stops};
ghost use Rattle.proof_words.specs.Written.{Written, WrittenFirst, written};
ghost use Rattle.proof_words.specs.declared.class.TokenClass.TheVariants.{Close, Stop};
ghost use Rattle.proof_words.specs.declared.names.LaterName.TheVariants as names;
ghost use Rattle.proof_words.specs.declared.fault.Halt.TheVariants.{Bad};

use crate::class::{TokenClass, word_text};
use crate::cursor::Walk;
use crate::fault::Halt;
use crate::names::{LaterName, later_name};
use crate::parts::{is_more, number, one_place, pass, place, read_subterm};
use derivation::{Later, Rewrite};
use std::alloc::Global;

// A rewriting where further ones may stand.
#[tactic(auto, using(crate::proofs::Spellings::as_rewriting))]
fn rewriting(alloc: Global, walk: &mut Walk) -> Result<Later, Halt>
    ensures ok { IfOk result (λ l. (w : WrittenFirst) (read : List LaterWord)
        → words_outcome (rewritings w read) walk.old ≡ words_outcome
        (behind_rewritings w (read ++ later_of l ∷ [])) walk.new) }
    ensures bad { result ≡ Err Bad → (w : WrittenFirst) (read : List LaterWord)
        → words_outcome (rewritings w read) walk.old ≡ stops walk.new }
    ensures shorter { OnOk result (length walk.new < length walk.old) }
{
    let subterm = read_subterm(alloc, walk)?;
    Ok(Later::Rewrite(Rewrite {
        rule: subterm.clause,
        literal: subterm.literal,
        path: subterm.path,
    }))
}

// A rewriting, and whether one more follows.
fn further_rewriting(alloc: Global, walk: &mut Walk) -> Result<(Later, bool), Halt>
    ensures ok { IfOk result (λ r. (w : WrittenFirst) (read : List LaterWord)
        → words_outcome (rewritings w read) walk.old ≡ words_outcome (if r.1 then
        rewritings w (read ++ later_of r.0 ∷ []) else
        passed_then Close (words w (read ++ later_of r.0 ∷ []))) walk.new) }
    ensures bad { result ≡ Err Bad → (w : WrittenFirst) (read : List LaterWord)
        → words_outcome (rewritings w read) walk.old ≡ stops walk.new }
    ensures shorter { OnOk result (length walk.new < length walk.old) }
{
    let rewriting = rewriting(alloc, walk)?;
    let more = is_more(walk, TokenClass::CommaOrCloseSquare)?;
    Ok((rewriting, more))
}

// Rewritings up to `])`.
fn rewritings(alloc: Global, walk: &mut Walk, steps: &mut Vec<Later>) -> Result<(), Halt>
    ensures ok { OnOk result ((w : WrittenFirst) → words_outcome
        (rewritings w (map later_of steps.old.items)) walk.old
        ≡ words_outcome (words w (map later_of steps.new.items)) walk.new) }
    ensures bad { result ≡ Err Bad → (w : WrittenFirst) → words_outcome
        (rewritings w (map later_of steps.old.items)) walk.old ≡ stops walk.new }
    ensures shorter { OnOk result (length walk.new < length walk.old) }
{
    loop {
        let (rewriting, more) = further_rewriting(alloc, walk)?;
        steps.push(rewriting)?;
        if !more {
            pass(walk, TokenClass::Close)?;
            return Ok(());
        }
    }
}

// `(a,n)`
fn place_and_number(walk: &mut Walk) -> Result<Later, Halt>
    ensures ok { IfOk result (λ l. (w : WrittenFirst) (read : List LaterWord)
        → words_outcome (behind_step_name w read names.UnitDel) walk.old
        ≡ words_outcome (words w (read ++ later_of l ∷ [])) walk.new) }
    ensures bad { result ≡ Err Bad → (w : WrittenFirst) (read : List LaterWord)
        → words_outcome (behind_step_name w read names.UnitDel) walk.old ≡ stops walk.new }
    ensures shorter { OnOk result (length walk.new < length walk.old) }
{
    pass(walk, TokenClass::Open)?;
    let a = place(walk)?;
    pass(walk, TokenClass::Comma)?;
    let n = number(walk)?;
    pass(walk, TokenClass::Close)?;
    Ok(Later::UnitDel(a, n))
}

// `([n(a,path),..])`
fn rewrite(alloc: Global, walk: &mut Walk, steps: &mut Vec<Later>) -> Result<(), Halt>
    ensures ok { OnOk result ((w : WrittenFirst) → words_outcome
        (behind_step_name w (map later_of steps.old.items) names.Rewrite) walk.old
        ≡ words_outcome (words w (map later_of steps.new.items)) walk.new) }
    ensures bad { result ≡ Err Bad → (w : WrittenFirst) → words_outcome
        (behind_step_name w (map later_of steps.old.items) names.Rewrite) walk.old
        ≡ stops walk.new }
    ensures shorter { OnOk result (length walk.new < length walk.old) }
{
    pass(walk, TokenClass::Open)?;
    pass(walk, TokenClass::OpenSquare)?;
    rewritings(alloc, walk, steps)?;
    Ok(())
}

// What stands behind a word.
fn step(alloc: Global, walk: &mut Walk, name: LaterName, steps: &mut Vec<Later>) -> Result<(), Halt>
    ensures ok { OnOk result ((w : WrittenFirst) → words_outcome
        (behind_step_name w (map later_of steps.old.items) name) walk.old
        ≡ words_outcome (words w (map later_of steps.new.items)) walk.new) }
    ensures bad { result ≡ Err Bad → (w : WrittenFirst) → words_outcome
        (behind_step_name w (map later_of steps.old.items) name) walk.old ≡ stops walk.new }
    ensures shorter { OnOk result (length walk.new < length walk.old) }
{
    let step = match name {
        LaterName::Rewrite => {
            rewrite(alloc, walk, steps)?;
            return Ok(());
        }
        LaterName::Flip => Later::Flip(one_place(walk)?),
        LaterName::Merge => Later::Merge(one_place(walk)?),
        LaterName::Xx => Later::Xx(one_place(walk)?),
        LaterName::UnitDel => place_and_number(walk)?,
    };
    steps.push(step)?;
    Ok(())
}

// Whether a word follows, or else `]`.
#[tactic(auto, using(crate::proofs::Spellings::as_words))]
fn has_more(walk: &mut Walk) -> Result<bool, Halt>
    ensures ok { IfOk result (λ more. (w : WrittenFirst) (read : List LaterWord)
        → words_outcome (words w read) walk.old ≡ words_outcome (if more then
        one_more w read else
        no_more w read) walk.new) }
    ensures bad { result ≡ Err Bad → (w : WrittenFirst) (read : List LaterWord)
        → words_outcome (words w read) walk.old ≡ stops walk.new }
    ensures shorter { OnOk result (length walk.new < length walk.old) }
{
    let more = is_more(walk, TokenClass::CommaOrCloseSquare)?;
    Ok(more)
}

// The name of a word.
fn name(walk: &mut Walk) -> Result<LaterName, Halt>
    ensures ok { IfOk result (λ name. (w : WrittenFirst) (read : List LaterWord)
        → words_outcome (one_more w read) walk.old
        ≡ words_outcome (behind_step_name w read name) walk.new) }
    ensures bad { result ≡ Err Bad → (w : WrittenFirst) (read : List LaterWord)
        → words_outcome (one_more w read) walk.old
        ≡ stops walk.new }
    ensures shorter { OnOk result (length walk.new < length walk.old) }
{
    let token = walk.take(TokenClass::StepWord)?;
    Ok(later_name(word_text(&token)).unwrap_or(LaterName::Xx))
}

/// `.`, and the words are complete.
pub fn stop(walk: &mut Walk) -> Result<(), Halt>
    ensures ok { OnOk result ((w : Written) → words_outcome (passed_then Stop (complete w)) walk.old
        ≡ reads w walk.new) }
    ensures bad { result ≡ Err Bad → (w : Written)
        → words_outcome (passed_then Stop (complete w)) walk.old ≡ stops walk.new }
{
    pass(walk, TokenClass::Stop)?;
    Ok(())
}

// One more word, and whether there is one; else `]`.
fn further(alloc: Global, walk: &mut Walk, steps: &mut Vec<Later>) -> Result<bool, Halt>
    ensures ok { IfOk result (λ more. (w : WrittenFirst) → words_outcome
        (words w (map later_of steps.old.items)) walk.old ≡ words_outcome (if more then
        words w (map later_of steps.new.items) else
        no_more w (map later_of steps.new.items)) walk.new) }
    ensures bad { result ≡ Err Bad → (w : WrittenFirst) → words_outcome
        (words w (map later_of steps.old.items)) walk.old ≡ stops walk.new }
    ensures shorter { OnOk result (length walk.new < length walk.old) }
{
    if !has_more(walk)? {
        return Ok(false);
    }
    let name = name(walk)?;
    step(alloc, walk, name, steps)?;
    Ok(true)
}

// All further words, up to `]`.
fn all_further(alloc: Global, walk: &mut Walk, steps: &mut Vec<Later>) -> Result<(), Halt>
    ensures ok { OnOk result ((w : WrittenFirst) → words_outcome
        (words w (map later_of steps.old.items)) walk.old
        ≡ words_outcome (no_more w (map later_of steps.new.items)) walk.new) }
    ensures bad { result ≡ Err Bad → (w : WrittenFirst) → words_outcome
        (words w (map later_of steps.old.items)) walk.old ≡ stops walk.new }
{
    loop {
        match further(alloc, walk, steps) {
            Ok(true) => {}
            Ok(false) => return Ok(()),
            Err(halt) => return Err(halt),
        }
    }
}

/// Words behind the first one, up to `].`
pub fn steps(alloc: Global, walk: &mut Walk) -> Result<Vec<Later>, Halt>
    ensures ok { IfOk result (λ ls. (w : WrittenFirst) → words_outcome (words w []) walk.old
        ≡ reads (written w (map later_of ls.items)) walk.new) }
    ensures bad { result ≡ Err Bad → (w : WrittenFirst)
        → words_outcome (words w []) walk.old ≡ stops walk.new }
{
    let mut steps = Vec::new(alloc);
    match all_further(alloc, walk, &mut steps) {
        Ok(()) => {}
        Err(halt) => return Err(halt),
    }
    match stop(walk) {
        Ok(()) => Ok(steps),
        Err(halt) => Err(halt),
    }
}
