// The parts that words are made of.
ghost use Rattle.std.specs.Prelude.{◌≡◌, ◌<◌, ◌≤◌, ◌∷◌, ◌++◌, [], ℕ, List, Err, IfOk, OnOk, if◌then◌else◌, length};
ghost use Rattle.derivation.specs.declared.words.Satellite.{Satellite};
ghost use Rattle.proof_words.specs.Spelling.{Spelling, passed_then, number_then, place_then, one_number, one_place, satellite_then, subterm_then, satellites, path, wants, more_or, behind_satellites, behind_path, words_outcome, stops};
ghost use Rattle.proof_words.specs.declared.fault.Halt.TheVariants.{Bad};

use crate::class::{TokenClass, word_text};
use crate::cursor::Walk;
use crate::fault::Halt;
use crate::names::place_named;
use derivation::Satellite;
use ladr_lex::{TokenKind, whole_number};
use std::alloc::Global;

/// A token that says nothing more.
pub fn pass(walk: &mut Walk, class: TokenClass) -> Result<(), Halt>
    ensures ok { OnOk result ((f : Spelling) → words_outcome (passed_then class f) walk.old
        ≡ words_outcome f walk.new) }
    ensures bad { result ≡ Err Bad → (f : Spelling)
        → words_outcome (passed_then class f) walk.old ≡ stops walk.new }
    ensures shorter { OnOk result (length walk.new < length walk.old) }
{
    walk.take(class)?;
    Ok(())
}

/// A number.
pub fn number(walk: &mut Walk) -> Result<u64, Halt>
    ensures ok { IfOk result (λ n. (onward : ℕ → Spelling)
        → words_outcome (number_then onward) walk.old ≡ words_outcome (onward n) walk.new) }
    ensures bad { result ≡ Err Bad → (onward : ℕ → Spelling)
        → words_outcome (number_then onward) walk.old ≡ stops walk.new }
    ensures shorter { OnOk result (length walk.new < length walk.old) }
{
    let token = walk.take(TokenClass::Number)?;
    Ok(whole_number(word_text(&token)).unwrap_or(0))
}

/// The name of a literal.
pub fn place(walk: &mut Walk) -> Result<u64, Halt>
    ensures ok { IfOk result (λ a. (onward : ℕ → Spelling)
        → words_outcome (place_then onward) walk.old ≡ words_outcome (onward a) walk.new) }
    ensures bad { result ≡ Err Bad → (onward : ℕ → Spelling)
        → words_outcome (place_then onward) walk.old ≡ stops walk.new }
    ensures shorter { OnOk result (length walk.new < length walk.old) }
{
    let token = walk.take(TokenClass::LiteralName)?;
    Ok(place_named(word_text(&token)))
}

/// `(n)`
pub fn one_number(walk: &mut Walk) -> Result<u64, Halt>
    ensures ok { IfOk result (λ n. (onward : ℕ → Spelling)
        → words_outcome (one_number onward) walk.old ≡ words_outcome (onward n) walk.new) }
    ensures bad { result ≡ Err Bad → (onward : ℕ → Spelling)
        → words_outcome (one_number onward) walk.old ≡ stops walk.new }
{
    pass(walk, TokenClass::Open)?;
    let n = number(walk)?;
    pass(walk, TokenClass::Close)?;
    Ok(n)
}

/// `(a)`
pub fn one_place(walk: &mut Walk) -> Result<u64, Halt>
    ensures ok { IfOk result (λ a. (onward : ℕ → Spelling)
        → words_outcome (one_place onward) walk.old ≡ words_outcome (onward a) walk.new) }
    ensures bad { result ≡ Err Bad → (onward : ℕ → Spelling)
        → words_outcome (one_place onward) walk.old ≡ stops walk.new }
    ensures shorter { OnOk result (length walk.new < length walk.old) }
{
    pass(walk, TokenClass::Open)?;
    let a = place(walk)?;
    pass(walk, TokenClass::Close)?;
    Ok(a)
}

/// `a,m,b`
pub fn satellite(walk: &mut Walk) -> Result<Satellite, Halt>
    ensures ok { IfOk result (λ s. (onward : Satellite → Spelling)
        → words_outcome (satellite_then onward) walk.old ≡ words_outcome (onward s) walk.new) }
    ensures bad { result ≡ Err Bad → (onward : Satellite → Spelling)
        → words_outcome (satellite_then onward) walk.old ≡ stops walk.new }
    ensures shorter { OnOk result (length walk.new < length walk.old) }
{
    let a = place(walk)?;
    pass(walk, TokenClass::Comma)?;
    let m = number(walk)?;
    pass(walk, TokenClass::Comma)?;
    let b = place(walk)?;
    Ok(Satellite {
        place: a,
        clause: m,
        literal: b,
    })
}

/// Whether a comma stands behind a part, or else what ends the parts.
pub fn is_more(walk: &mut Walk, class: TokenClass) -> Result<bool, Halt>
    ensures ok { IfOk result (λ more. (f g : Spelling)
        → words_outcome (wants class (more_or f g)) walk.old
        ≡ words_outcome (if more then f else g) walk.new) }
    ensures bad { result ≡ Err Bad → (f g : Spelling)
        → words_outcome (wants class (more_or f g)) walk.old ≡ stops walk.new }
    ensures shorter { OnOk result (length walk.new < length walk.old) }
{
    let token = walk.take(class)?;
    Ok(token.kind() == TokenKind::Comma)
}

// A satellite, and whether one more follows.
fn further_satellite(walk: &mut Walk) -> Result<(Satellite, bool), Halt>
    ensures ok { IfOk result (λ r. (read : List Satellite) (onward : List Satellite → Spelling)
        → words_outcome (satellites read onward) walk.old ≡ words_outcome (if r.1 then
        satellites (read ++ r.0 ∷ []) onward else onward (read ++ r.0 ∷ [])) walk.new) }
    ensures bad { result ≡ Err Bad → (read : List Satellite) (onward : List Satellite → Spelling)
        → words_outcome (satellites read onward) walk.old ≡ stops walk.new }
    ensures shorter { OnOk result (length walk.new < length walk.old) }
{
    let satellite = first_satellite(walk)?;
    let more = is_more(walk, TokenClass::CommaOrClose)?;
    Ok((satellite, more))
}

// A satellite where further ones may stand.
#[tactic(auto, using(crate::proofs::Spellings::as_satellite))]
fn first_satellite(walk: &mut Walk) -> Result<Satellite, Halt>
    ensures ok { IfOk result (λ s. (read : List Satellite) (onward : List Satellite → Spelling)
        → words_outcome (satellites read onward) walk.old
        ≡ words_outcome (behind_satellites (read ++ s ∷ []) onward) walk.new) }
    ensures bad { result ≡ Err Bad → (read : List Satellite) (onward : List Satellite → Spelling)
        → words_outcome (satellites read onward) walk.old ≡ stops walk.new }
    ensures shorter { OnOk result (length walk.new < length walk.old) }
{
    let satellite = satellite(walk)?;
    Ok(satellite)
}

/// Satellites up to `)`.
pub fn satellites(alloc: Global, walk: &mut Walk) -> Result<Vec<Satellite>, Halt>
    ensures ok { IfOk result (λ ss. (onward : List Satellite → Spelling)
        → words_outcome (satellites [] onward) walk.old
        ≡ words_outcome (onward ss.items) walk.new) }
    ensures bad { result ≡ Err Bad → (onward : List Satellite → Spelling)
        → words_outcome (satellites [] onward) walk.old ≡ stops walk.new }
{
    let mut read = Vec::new(alloc);
    loop {
        let (satellite, more) = further_satellite(walk)?;
        read.push(satellite)?;
        if !more {
            return Ok(read);
        }
    }
}

// A number of a path.
#[tactic(auto, using(crate::proofs::Spellings::as_step))]
fn step(walk: &mut Walk) -> Result<u64, Halt>
    ensures ok { IfOk result (λ n. (read : List ℕ) (onward : List ℕ → Spelling)
        → words_outcome (path read onward) walk.old
        ≡ words_outcome (behind_path (read ++ n ∷ []) onward) walk.new) }
    ensures bad { result ≡ Err Bad → (read : List ℕ) (onward : List ℕ → Spelling)
        → words_outcome (path read onward) walk.old ≡ stops walk.new }
    ensures shorter { OnOk result (length walk.new < length walk.old) }
{
    let n = number(walk)?;
    Ok(n)
}

// A number of a path, and whether one more follows.
fn further_step(walk: &mut Walk) -> Result<(u64, bool), Halt>
    ensures ok { IfOk result (λ r. (read : List ℕ) (onward : List ℕ → Spelling)
        → words_outcome (path read onward) walk.old ≡ words_outcome (if r.1 then
        path (read ++ r.0 ∷ []) onward else onward (read ++ r.0 ∷ [])) walk.new) }
    ensures bad { result ≡ Err Bad → (read : List ℕ) (onward : List ℕ → Spelling)
        → words_outcome (path read onward) walk.old ≡ stops walk.new }
    ensures shorter { OnOk result (length walk.new < length walk.old) }
{
    let n = step(walk)?;
    let more = is_more(walk, TokenClass::CommaOrClose)?;
    Ok((n, more))
}

// The numbers of a path up to `)`.
fn path(alloc: Global, walk: &mut Walk) -> Result<Vec<u64>, Halt>
    ensures ok { IfOk result (λ ns. (onward : List ℕ → Spelling)
        → words_outcome (path [] onward) walk.old ≡ words_outcome (onward ns.items) walk.new) }
    ensures bad { result ≡ Err Bad → (onward : List ℕ → Spelling)
        → words_outcome (path [] onward) walk.old ≡ stops walk.new }
    ensures shorter { OnOk result (length walk.new < length walk.old) }
{
    let mut read = Vec::new(alloc);
    loop {
        let (n, more) = further_step(walk)?;
        read.push(n)?;
        if !more {
            return Ok(read);
        }
    }
}

/// A subterm: a clause's number, the place of a literal, and a path.
#[derive(Drop)]
pub struct Subterm {
    pub clause: u64,
    pub literal: u64,
    pub path: Vec<u64>,
}

/// `n(a,path)`
pub fn read_subterm(alloc: Global, walk: &mut Walk) -> Result<Subterm, Halt>
    ensures ok { IfOk result (λ t. (onward : ℕ → ℕ → List ℕ → Spelling)
        → words_outcome (subterm_then onward) walk.old
        ≡ words_outcome (onward t.clause t.literal t.path.items) walk.new) }
    ensures bad { result ≡ Err Bad → (onward : ℕ → ℕ → List ℕ → Spelling)
        → words_outcome (subterm_then onward) walk.old ≡ stops walk.new }
    ensures shorter { OnOk result (length walk.new < length walk.old) }
{
    let clause = number(walk)?;
    pass(walk, TokenClass::Open)?;
    let literal = place(walk)?;
    pass(walk, TokenClass::Comma)?;
    let path = path(alloc, walk)?;
    Ok(Subterm {
        clause,
        literal,
        path,
    })
}
