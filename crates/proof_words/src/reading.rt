// Reading the words of a line.
ghost use Rattle.std.specs.Prelude.{◌≡◌, true, false, ℕ, List, Err, IfOk, IfErr};
ghost use Rattle.derivation.specs.declared.words.Satellite.{Satellite};
ghost use Rattle.ladr_lex.specs.Lexeme.{lexemes_of};
ghost use Rattle.proof_words.specs.Classes.{names_formula, may_begin};
ghost use Rattle.proof_words.specs.Faults.{IsWordsFault, AreFirstWords};
ghost use Rattle.proof_words.specs.Spelling.{Spelling, line_words, behind_content, behind_first_word, named, takes_steps, clash, equation_then, words_outcome, reads, stops};
ghost use Rattle.proof_words.specs.Written.{written_of, written_first, states_formula, suits};
ghost use Rattle.proof_words.specs.declared.fault.Halt.TheVariants.{Bad};
ghost use Rattle.proof_words.specs.declared.names.FirstName.TheVariants.{Resolve, Factor, Para, XxRes};

use crate::class::{TokenClass, word_text};
use crate::cursor::Walk;
use crate::fault::{Halt, WordsFault};
use crate::names::{ContentKind, FirstName, first_name};
use crate::parts::{number, one_number, pass, place, read_subterm, satellite, satellites};
use crate::steps::{steps, stop};
use derivation::{First, Just, Paramodulation, Satellite};
use ladr_lex::Token;
use std::alloc::Global;

/// The words of a line that tokens begin with, behind content of a kind, and how many tokens they are.
pub fn read_words(
    alloc: Global,
    kind: ContentKind,
    tokens: &[Token],
) -> Result<(Just, usize), WordsFault>
    ensures read { IfOk result (λ r. AreFirstWords (line_words kind) (lexemes_of tokens.now)
        (written_of r.0) r.1) }
    ensures suits { IfOk result (λ r. suits kind (written_first r.0.first) ≡ true) }
    ensures fault { IfErr result (IsWordsFault (line_words kind) (lexemes_of tokens.now)) }
{
    let mut walk = Walk::new(tokens);
    match line(alloc, kind, &mut walk) {
        Ok(just) => Ok((just, tokens.len() - walk.left())),
        Err(Halt::Bad) => Err(WordsFault::Bad(tokens.len() - walk.left())),
        Err(Halt::Memory) => Err(WordsFault::Memory),
    }
}

// All words.
fn line(alloc: Global, kind: ContentKind, walk: &mut Walk) -> Result<Just, Halt>
    ensures ok { IfOk result (λ j. words_outcome (line_words kind) walk.old
        ≡ reads (written_of j) walk.new) }
    ensures suits { IfOk result (λ j. suits kind (written_first j.first) ≡ true) }
    ensures bad { result ≡ Err Bad → words_outcome (line_words kind) walk.old ≡ stops walk.new }
{
    pass(walk, TokenClass::OpenSquare)?;
    let name = name(kind, walk)?;
    let first = named(alloc, walk, name)?;
    behind_first(alloc, walk, first)
}

// The name of the first one.
fn name(kind: ContentKind, walk: &mut Walk) -> Result<FirstName, Halt>
    ensures ok { IfOk result (λ name. words_outcome (behind_content kind) walk.old
        ≡ words_outcome (named name) walk.new) }
    ensures begins { IfOk result (λ name. may_begin kind name ≡ true) }
    ensures bad { result ≡ Err Bad → words_outcome (behind_content kind) walk.old ≡ stops walk.new }
{
    let token = walk.take(TokenClass::FirstWord(kind))?;
    Ok(first_name(word_text(&token)).unwrap_or(FirstName::Assumption))
}

// `(n,a,m,b)`
fn resolve(walk: &mut Walk) -> Result<First, Halt>
    ensures ok { IfOk result (λ first. words_outcome (named Resolve) walk.old
        ≡ words_outcome (behind_first_word (written_first first)) walk.new) }
    ensures sort { IfOk result (λ first. states_formula (written_first first) ≡ false) }
    ensures bad { result ≡ Err Bad → words_outcome (named Resolve) walk.old ≡ stops walk.new }
{
    pass(walk, TokenClass::Open)?;
    let n = number(walk)?;
    pass(walk, TokenClass::Comma)?;
    let satellite = satellite(walk)?;
    pass(walk, TokenClass::Close)?;
    Ok(First::Resolve(n, satellite))
}

// `(n,a1,m1,b1,..)`
fn clash(alloc: Global, walk: &mut Walk) -> Result<(u64, Vec<Satellite>), Halt>
    ensures ok { IfOk result (λ r. (onward : ℕ → List Satellite → Spelling)
        → words_outcome (clash onward) walk.old ≡ words_outcome (onward r.0 r.1.items) walk.new) }
    ensures bad { result ≡ Err Bad → (onward : ℕ → List Satellite → Spelling)
        → words_outcome (clash onward) walk.old ≡ stops walk.new }
{
    pass(walk, TokenClass::Open)?;
    let n = number(walk)?;
    pass(walk, TokenClass::Comma)?;
    let satellites = satellites(alloc, walk)?;
    Ok((n, satellites))
}

// `(n,a,b)`
fn factor(walk: &mut Walk) -> Result<First, Halt>
    ensures ok { IfOk result (λ first. words_outcome (named Factor) walk.old
        ≡ words_outcome (behind_first_word (written_first first)) walk.new) }
    ensures sort { IfOk result (λ first. states_formula (written_first first) ≡ false) }
    ensures bad { result ≡ Err Bad → words_outcome (named Factor) walk.old ≡ stops walk.new }
{
    pass(walk, TokenClass::Open)?;
    let n = number(walk)?;
    pass(walk, TokenClass::Comma)?;
    let a = place(walk)?;
    pass(walk, TokenClass::Comma)?;
    let b = place(walk)?;
    pass(walk, TokenClass::Close)?;
    Ok(First::Factor(n, a, b))
}

// `(n,a)`
fn xx_res(walk: &mut Walk) -> Result<First, Halt>
    ensures ok { IfOk result (λ first. words_outcome (named XxRes) walk.old
        ≡ words_outcome (behind_first_word (written_first first)) walk.new) }
    ensures sort { IfOk result (λ first. states_formula (written_first first) ≡ false) }
    ensures bad { result ≡ Err Bad → words_outcome (named XxRes) walk.old ≡ stops walk.new }
{
    pass(walk, TokenClass::Open)?;
    let n = number(walk)?;
    pass(walk, TokenClass::Comma)?;
    let a = place(walk)?;
    pass(walk, TokenClass::Close)?;
    Ok(First::XxRes(n, a))
}

// `n(a,s)`
fn equation(walk: &mut Walk) -> Result<(u64, u64, u64), Halt>
    ensures ok { IfOk result (λ r. (onward : ℕ → ℕ → ℕ → Spelling)
        → words_outcome (equation_then onward) walk.old
        ≡ words_outcome (onward r.0 r.1 r.2) walk.new) }
    ensures bad { result ≡ Err Bad → (onward : ℕ → ℕ → ℕ → Spelling)
        → words_outcome (equation_then onward) walk.old ≡ stops walk.new }
{
    let n = number(walk)?;
    pass(walk, TokenClass::Open)?;
    let a = place(walk)?;
    pass(walk, TokenClass::Comma)?;
    let side = number(walk)?;
    pass(walk, TokenClass::Close)?;
    Ok((n, a, side))
}

// `(n(a,s),m(b,path))`
fn para(alloc: Global, walk: &mut Walk) -> Result<First, Halt>
    ensures ok { IfOk result (λ first. words_outcome (named Para) walk.old
        ≡ words_outcome (behind_first_word (written_first first)) walk.new) }
    ensures sort { IfOk result (λ first. states_formula (written_first first) ≡ false) }
    ensures bad { result ≡ Err Bad → words_outcome (named Para) walk.old ≡ stops walk.new }
{
    pass(walk, TokenClass::Open)?;
    let (from, equation, side) = equation(walk)?;
    pass(walk, TokenClass::Comma)?;
    let into = read_subterm(alloc, walk)?;
    pass(walk, TokenClass::Close)?;
    Ok(First::Para(Paramodulation {
        from,
        equation,
        side,
        into: into.clause,
        literal: into.literal,
        path: into.path,
    }))
}

// The first word behind its name.
fn named(alloc: Global, walk: &mut Walk, name: FirstName) -> Result<First, Halt>
    ensures ok { IfOk result (λ first. words_outcome (named name) walk.old
        ≡ words_outcome (behind_first_word (written_first first)) walk.new) }
    ensures sort { IfOk result (λ first. states_formula (written_first first)
        ≡ names_formula name) }
    ensures bad { result ≡ Err Bad → words_outcome (named name) walk.old ≡ stops walk.new }
{
    match name {
        FirstName::Assumption => Ok(First::Assumption),
        FirstName::Goal => Ok(First::Goal),
        FirstName::Clausify => Ok(First::Clausify(one_number(walk)?)),
        FirstName::Deny => Ok(First::Deny(one_number(walk)?)),
        FirstName::Copy => Ok(First::Copy(one_number(walk)?)),
        FirstName::BackRewrite => Ok(First::BackRewrite(one_number(walk)?)),
        FirstName::BackUnitDel => Ok(First::BackUnitDel(one_number(walk)?)),
        FirstName::Resolve => resolve(walk),
        FirstName::Hyper => {
            let (n, satellites) = clash(alloc, walk)?;
            Ok(First::Hyper(n, satellites))
        }
        FirstName::Ur => {
            let (n, satellites) = clash(alloc, walk)?;
            Ok(First::Ur(n, satellites))
        }
        FirstName::Factor => factor(walk),
        FirstName::Para => para(alloc, walk),
        FirstName::XxRes => xx_res(walk),
    }
}

// Whether words may follow.
fn takes_steps(first: &First) -> bool
    ensures { result ≡ takes_steps (written_first first.now) }
{
    match first {
        First::Assumption | First::Goal | First::Clausify(_) | First::Deny(_) => false,
        _ => true,
    }
}

// What stands behind the first word.
fn behind_first(alloc: Global, walk: &mut Walk, first: First) -> Result<Just, Halt>
    ensures ok { IfOk result (λ j. words_outcome (behind_first_word (written_first first)) walk.old
        ≡ reads (written_of j) walk.new) }
    ensures first { IfOk result (λ j. written_first j.first ≡ written_first first) }
    ensures bad { result ≡ Err Bad
        → words_outcome (behind_first_word (written_first first)) walk.old
        ≡ stops walk.new }
{
    if takes_steps(&first) {
        let steps = steps(alloc, walk)?;
        return Ok(Just { first, steps });
    }
    pass(walk, TokenClass::CloseSquare)?;
    stop(walk)?;
    Ok(Just {
        first,
        steps: Vec::new(alloc),
    })
}
