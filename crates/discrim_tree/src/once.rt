// What is told of the variables of a term: the places at which one stands that stands at others too.
ghost use Rattle.std.specs.Prelude.{◌≡◌, ◌+◌, ◌*◌, ◌≤◌, ◌↔◌, ◌++◌, IfOk, IfSome, IsTrue};
ghost use Rattle.std.specs.Option.{option_map};
ghost use Rattle.fol_core.specs.TermView.{tree_of};
ghost use Rattle.fol_core.specs.Tree.{trees_of};
ghost use Rattle.discrim_tree.specs.Linear.{IsTold};
ghost use Rattle.discrim_tree.specs.Places.{at_place, occurrences, next_place, repeats, AreAlike, IsAlike, IsNarrow};

use fol_core::{Term, Terms};
use std::alloc::{AllocError, Global};
use substitutions::{part, same};

// So many occurrences of variables are compared with each other at most.
const MOST: usize = 64;

// The greatest number of an argument that four bits have room for.
const WIDEST: u64 = 15;

/// A variable and a place where it stands. The number of a place has that of the outermost argument in its lowest four bits,
/// counted from 1, above them the number of the one within that, and so on.
#[derive(Clone, Copy)]
pub struct Occurrence {
    pub variable: u64,
    pub place: u64,
}

/// Two places at which one variable stands.
#[derive(Clone, Copy)]
pub struct Repeat {
    pub first: u64,
    pub second: u64,
}

/// Each place of a variable with the next one of the same variable, or the term itself.
#[derive(Drop)]
pub enum Told {
    Whole(Box<Term>),
    Repeats(Vec<Repeat>),
}

// The part of a term at a place, if it's there.
#[tactic(auto, using(crate::proofs::Repeated::at_start, crate::proofs::Repeated::goes_in, crate::proofs::Repeated::goes_out))]
fn at_place(t: &Term, place: u64) -> Option<&Term>
    ensures { option_map (λ u. tree_of u.now) result ≡ at_place (tree_of t.now) place }
{
    let mut here = t;
    let mut rest = place;
    while rest > 0 {
        match part(here, rest % 16) {
            Some(next) => here = next,
            None => return None,
        }
        rest = rest / 16;
    }
    Some(here)
}

impl Repeat {
    // Whether a term has the same part at both places.
    fn is_alike(&self, t: &Term) -> bool
        ensures { IsTrue result ↔ IsAlike (tree_of t.now) self.now }
    {
        match at_place(t, self.first) {
            None => false,
            Some(first) => match at_place(t, self.second) {
                None => false,
                Some(second) => same(first, second),
            },
        }
    }
}

/// Whether a term has the same part at both places, for each two of them.
pub fn are_alike(repeats: &[Repeat], t: &Term) -> bool
    ensures { IsTrue result ↔ AreAlike (tree_of t.now) repeats.now }
{
    for repeat in repeats {
        if !repeat.is_alike(t) {
            return false;
        }
    }
    true
}

// The term itself is told.
fn whole(alloc: Global, t: &Term) -> Result<Told, AllocError>
    ensures { IfOk result (IsTold (tree_of t.now)) }
{
    let copy = t.copy(alloc)?;
    Ok(Told::Whole(Box::new(alloc, copy)?))
}

/// What is told of a term's variables; the term itself where many stand in it, or where it is so deep or wide that a place has
/// no number.
pub fn tell(alloc: Global, t: &Term) -> Result<Told, AllocError>
    ensures { IfOk result (IsTold (tree_of t.now)) }
{
    let mut found = Vec::new(alloc);
    if !add_occurring(&mut found, t, 0, 1)? {
        return whole(alloc, t);
    }
    if found.len() > MOST {
        return whole(alloc, t);
    }
    Ok(Told::Repeats(repeats(alloc, &found)?))
}

// The place of an argument of a term at a place, and what counts for one within it, if there are numbers for them.
fn within(place: u64, unit: u64, number: u64) -> Option<(u64, u64)>
    ensures { IfSome result (λ p. (p.0 ≡ place + number * unit) × (p.1 ≡ 16 * unit) × (number ≤ 15)) }
{
    if number > WIDEST {
        return None;
    }
    let deeper = unit.checked_mul(16)?;
    let place = number.checked_mul(unit)?.checked_add(place)?;
    Some((place, deeper))
}

// The occurrences of variables in a part of a term come to others, or it answers false where there is no number for a place.
fn add_occurring(
    found: &mut Vec<Occurrence>,
    t: &Term,
    place: u64,
    unit: u64,
) -> Result<bool, AllocError>
    ensures added { IfOk result (λ b. IsTrue b → found.new.items ≡ found.old.items ++ occurrences place unit (tree_of t.now)) }
    ensures narrow { IfOk result (λ b. IsTrue b → IsNarrow (tree_of t.now)) }
{
    match t {
        Term::Var(x) => {
            found.push(Occurrence {
                variable: *x,
                place,
            })?;
            Ok(true)
        }
        Term::Elem(_) => Ok(true),
        Term::App(_, terms) => {
            for (i, term) in terms.items.iter().enumerate() {
                let Some((inner, deeper)) = within(place, unit, i as u64 + 1) else {
                    return Ok(false);
                };
                if !add_occurring(found, term, inner, deeper)? {
                    return Ok(false);
                }
            }
            Ok(true)
        }
    }
}

// Each place with the next one of the same variable.
fn repeats(alloc: Global, occurrences: &[Occurrence]) -> Result<Vec<Repeat>, AllocError>
    ensures { IfOk result (λ made. made.items ≡ repeats occurrences.now) }
{
    let mut made = Vec::new(alloc);
    for (i, occurrence) in occurrences.iter().enumerate() {
        if let Some(second) = next_place(occurrence.variable, &occurrences[i + 1..]) {
            made.reserve_exact(1)?;
            made.push(Repeat {
                first: occurrence.place,
                second,
            })?;
        }
    }
    Ok(made)
}

// The first place of a variable.
#[tactic(auto, using(crate::proofs::Repeated::next_here, crate::proofs::Repeated::next_behind, crate::proofs::Repeated::next_end))]
fn next_place(x: u64, occurrences: &[Occurrence]) -> Option<u64>
    ensures { result ≡ next_place x occurrences.now }
{
    for occurrence in occurrences {
        if occurrence.variable == x {
            return Some(occurrence.place);
        }
    }
    None
}
