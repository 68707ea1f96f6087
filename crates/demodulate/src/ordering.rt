// A clause put in order: sides of equations exchanged, literals left out.
ghost use Rattle.std.specs.Prelude.{◌≡◌, ◌<◌, ◌≤◌, [], IfOk, OnOk, length, map};
ghost use Rattle.clause_index.specs.Sets.{all_in};
ghost use Rattle.demodulate.specs.Passes.{FlipsOn, PassGoesOn};
ghost use Rattle.demodulate.specs.Steps.{lesser, tidied_of};
ghost use Rattle.derivation.specs.View.{later_of};
ghost use Rattle.fol_core.specs.ClauseView.{literal_of};
ghost use Rattle.held_clauses.specs.Holding.{lent};
ghost use Rattle.held_clauses.specs.Order.{greater_of};
ghost use Rattle.prover_steps.specs.HeldOrder.{numbers_of, IsRising};
ghost use Rattle.prover_steps.specs.Shortening.{is_turned, flips_from, left_out, same_literal, is_merged, is_false_equation, is_left_out, first_denying, is_denied, followed_by, put_in_order};

use crate::fitting::denies;
use crate::step::Tidied;
use clause_index::{HeldSet, HeldSets};
use derivation::{Later, sides};
use discrim_tree::Tries;
use fol_core::{Clause, Literal};
use held_clauses::{Held, is_greater};
use inference::{Followed, drop_reflexive, merge as merge_word, take_out, turn_at};
use std::alloc::{AllocError, Global};
use term_order::Precedence;

// Whether the right side of a literal's equation is greater.
fn is_turned(precedence: &Precedence, literal: &Literal) -> Result<bool, AllocError>
    ensures { IfOk result (λ b. b ≡ is_turned (greater_of precedence.now)
        (literal_of literal.now)) }
{
    let Some((left, right)) = sides(&literal.atom) else {
        return Ok(false);
    };
    is_greater(precedence, right, left)
}

// Exchanges the sides of the equation at a place, if the right one is greater.
fn flip_at(
    precedence: &Precedence,
    clause: &mut Clause,
    words: &mut Vec<Later>,
    place: usize,
) -> Result<(), AllocError>
    requires { place < length clause.old }
    ensures { OnOk result (FlipsOn (greater_of precedence.now) clause.old
        (map later_of words.old.items) place clause.new (map later_of words.new.items)) }
{
    if is_turned(precedence, &clause.literals[place])? {
        turn_at(clause, place);
        words.push(Later::Flip(place as u64))?;
    }
    Ok(())
}

// Exchanges the sides of each equation whose right one is greater.
#[tactic(auto, using(crate::proofs::Passing::flips_ended))]
fn flip(precedence: &Precedence, tidied: Tidied) -> Result<Tidied, AllocError>
    ensures { IfOk result (λ t. tidied_of t ≡ followed_by (tidied_of tidied)
        (flips_from (greater_of precedence.now) 0)) }
{
    let Tidied {
        mut clause,
        mut words,
    } = tidied;
    for place in 0..clause.len() {
        flip_at(precedence, &mut clause, &mut words, place)?;
    }
    Ok(Tidied { clause, words })
}

// Leaves out the literal at a place if it stands before; the place of the next one.
fn merge_at(clause: &mut Clause, words: &mut Vec<Later>, place: usize) -> Result<usize, AllocError>
    requires { place < length clause.old }
    ensures { IfOk result (PassGoesOn is_merged clause.old (map later_of words.old.items) place
        clause.new (map later_of words.new.items)) }
{
    let _literals = clause.len();
    match merge_word(clause, place as u64) {
        Followed::Done => {
            words.push(Later::Merge(place as u64))?;
            Ok(place)
        }
        Followed::Misplaced => Ok(place + 1),
        Followed::Differs => Ok(place + 1),
        Followed::TooLarge => Ok(place + 1),
    }
}

// Leaves out literals that stand before.
#[tactic(auto, using(crate::proofs::Passing::pass_ended))]
fn merge(tidied: Tidied) -> Result<Tidied, AllocError>
    ensures { IfOk result (λ t. tidied_of t ≡ followed_by (tidied_of tidied)
        (left_out is_merged [])) }
{
    let Tidied {
        mut clause,
        mut words,
    } = tidied;
    let mut place = 0;
    while place < clause.len() {
        place = merge_at(&mut clause, &mut words, place)?;
    }
    Ok(Tidied { clause, words })
}

// Leaves out the literal at a place if it is an inequation with one term on both sides; the place of the next one.
fn leave_out_at(
    clause: &mut Clause,
    words: &mut Vec<Later>,
    place: usize,
) -> Result<usize, AllocError>
    requires { place < length clause.old }
    ensures { IfOk result (PassGoesOn is_left_out clause.old (map later_of words.old.items) place
        clause.new (map later_of words.new.items)) }
{
    let _literals = clause.len();
    match drop_reflexive(clause, place as u64) {
        Followed::Done => {
            words.push(Later::Xx(place as u64))?;
            Ok(place)
        }
        Followed::Misplaced => Ok(place + 1),
        Followed::Differs => Ok(place + 1),
        Followed::TooLarge => Ok(place + 1),
    }
}

// Leaves out such literals.
#[tactic(auto, using(crate::proofs::Passing::pass_ended))]
fn leave_out_false(tidied: Tidied) -> Result<Tidied, AllocError>
    ensures { IfOk result (λ t. tidied_of t ≡ followed_by (tidied_of tidied)
        (left_out is_left_out [])) }
{
    let Tidied {
        mut clause,
        mut words,
    } = tidied;
    let mut place = 0;
    while place < clause.len() {
        place = leave_out_at(&mut clause, &mut words, place)?;
    }
    Ok(Tidied { clause, words })
}

// The number of the first of some units that denies a literal.
#[tactic(auto, using(crate::proofs::Fits::denying_here, crate::proofs::Fits::denying_behind, crate::proofs::Fits::denying_end))]
fn first_denying(
    alloc: Global,
    held: &[&Held],
    literal: &Literal,
) -> Result<Option<u64>, AllocError>
    ensures { IfOk result (λ o. o ≡ first_denying (lent held.now) (literal_of literal.now)) }
{
    for unit in held {
        if denies(alloc, unit, literal)? {
            return Ok(Some(unit.number()));
        }
    }
    Ok(None)
}

// The number of the first unit of a set that denies a literal; the numbers of the set rise.
#[tactic(auto, using(crate::proofs::Denying::denied_among))]
fn first_denying_in(
    alloc: Global,
    set: &HeldSet,
    literal: &Literal,
    tries: &mut Tries,
) -> Result<Option<u64>, AllocError>
    ensures first { IfOk result (λ o. o ≡ first_denying set.now (literal_of literal.now)) }
    ensures rising { IsRising (numbers_of set.now) }
    ensures on { tries.old ≤ tries.new }
{
    let units = set.short_above(!literal.positive, &literal.atom, tries)?;
    first_denying(alloc, units.as_slice(), literal)
}

// The lesser of two numbers, if there are any.
fn lesser(first: Option<u64>, second: Option<u64>) -> Option<u64>
    ensures { result ≡ lesser first second }
{
    match first {
        None => second,
        Some(n) => match second {
            None => Some(n),
            Some(m) => Some(n.min(m)),
        },
    }
}

// The number of the first unit of two sets that denies a literal.
#[tactic(auto, using(crate::proofs::Denying::denied_by_either))]
fn first_denying_of_all(
    alloc: Global,
    held: &HeldSets<'_>,
    literal: &Literal,
    tries: &mut Tries,
) -> Result<Option<u64>, AllocError>
    ensures first { IfOk result (λ o. o ≡ first_denying (all_in held.now) (literal_of literal.now)) }
    ensures on { tries.old ≤ tries.new }
{
    let waiting = first_denying_in(alloc, held.waiting, literal, tries)?;
    let usable = first_denying_in(alloc, held.usable, literal, tries)?;
    Ok(lesser(waiting, usable))
}

// Leaves out the literal at a place if a unit denies it; the place of the next one.
fn delete_at(
    alloc: Global,
    held: &HeldSets<'_>,
    clause: &mut Clause,
    words: &mut Vec<Later>,
    place: usize,
    tries: &mut Tries,
) -> Result<usize, AllocError>
    requires { place < length clause.old }
    ensures pass { IfOk result (PassGoesOn (is_denied (all_in held.now)) clause.old
        (map later_of words.old.items) place clause.new (map later_of words.new.items)) }
    ensures on { tries.old ≤ tries.new }
{
    match first_denying_of_all(alloc, held, &clause.literals[place], tries)? {
        Some(number) => {
            take_out(clause, place);
            words.push(Later::UnitDel(place as u64, number))?;
            Ok(place)
        }
        None => Ok(place + 1),
    }
}

// Leaves out literals that units deny.
#[tactic(auto, using(crate::proofs::Passing::pass_ended))]
fn delete_by_units(
    alloc: Global,
    held: &HeldSets<'_>,
    tidied: Tidied,
    tries: &mut Tries,
) -> Result<Tidied, AllocError>
    ensures left { IfOk result (λ t. tidied_of t ≡ followed_by (tidied_of tidied)
        (left_out (is_denied (all_in held.now)) [])) }
    ensures on { tries.old ≤ tries.new }
{
    let Tidied {
        mut clause,
        mut words,
    } = tidied;
    let mut place = 0;
    while place < clause.len() {
        place = delete_at(alloc, held, &mut clause, &mut words, place, tries)?;
    }
    Ok(Tidied { clause, words })
}

/// A clause put in order by the order of terms, and by the units that are held if units may delete; its words come behind
/// those that it has.
pub fn put_in_order(
    alloc: Global,
    precedence: &Precedence,
    units: bool,
    held: &HeldSets<'_>,
    tidied: Tidied,
    tries: &mut Tries,
) -> Result<Tidied, AllocError>
    ensures ordered { IfOk result (λ t. tidied_of t ≡ followed_by (tidied_of tidied)
        (put_in_order (greater_of precedence.now) units (all_in held.now))) }
    ensures on { tries.old ≤ tries.new }
{
    let flipped = flip(precedence, tidied)?;
    let merged = merge(flipped)?;
    let shortened = leave_out_false(merged)?;
    if units {
        Ok(delete_by_units(alloc, held, shortened, tries)?)
    } else {
        Ok(shortened)
    }
}
