// What a rule makes of a term: counted before it is built.
ghost use Rattle.std.specs.Prelude.{◌≡◌, ◌<◌, ◌+◌, [], MatchOption, IfOk};
ghost use Rattle.std.specs.Option.{option_map};
ghost use Rattle.fol_core.specs.Sizes.{size_of};
ghost use Rattle.fol_core.specs.Substitutions.{substitute};
ghost use Rattle.fol_core.specs.TermView.{tree_of};
ghost use Rattle.inference.specs.Followed.{IsExchanged};
ghost use Rattle.substitutions.specs.Bindings.{by_bindings};
ghost use Rattle.unifiers.specs.Matching.{matched};

use clause_limits::left_behind;
use fol_core::Term;
use std::alloc::{AllocError, Global};
use term_matches::Matches;

// How many symbols and variables a term may have that a rule puts into a plain clause.
const MOST_BUILT_SYMBOLS: u64 = 16_777_216;

/// What a rule makes of a term: it is no instance of the left side; there would be too many symbols and variables; or what is put in
/// for it.
#[derive(Drop)]
pub enum Exchanged {
    Differs,
    TooLarge,
    By(Term),
}

// How many symbols and variables are left of a number behind those of the term that stands for a variable.
#[tactic(auto, using(term_matches::proofs::Fronts::bound_is))]
fn left_behind_value(found: &Matches, x: u64, room: u64) -> Option<u64>
    ensures { MatchOption result (room < size_of (by_bindings found.now.bindings x))
        (λ left. left + size_of (by_bindings found.now.bindings x) ≡ room) }
{
    match found.given(x) {
        Some(term) => left_behind(term, room),
        None => room.checked_sub(1),
    }
}

// The same of a term with terms put in.
#[tactic(auto, using(crate::proofs::PutSteps::none_left, crate::proofs::PutSteps::sizes_next, crate::proofs::PutSteps::sizes_end))]
fn left_behind_put(found: &Matches, term: &Term, room: u64) -> Option<u64>
    ensures { MatchOption result
        (room < size_of (substitute (by_bindings found.now.bindings) (tree_of term.now)))
        (λ left. left + size_of (substitute (by_bindings found.now.bindings) (tree_of term.now))
        ≡ room) }
{
    if room == 0 {
        return None;
    }
    let mut left = room - 1;
    match term {
        Term::Var(x) => left_behind_value(found, *x, room),
        Term::Elem(_) => Some(left),
        Term::App(_, terms) => {
            for term in &terms.items {
                match left_behind_put(found, term, left) {
                    Some(rest) => left = rest,
                    None => return None,
                }
            }
            Some(left)
        }
    }
}

/// What matches the left side of a rule onto a term, if it is an instance of it.
pub fn match_of<'a>(
    alloc: Global,
    left: &Term,
    term: &'a Term,
) -> Result<Option<Matches<'a>>, AllocError>
    ensures { IfOk result (λ o. option_map (λ m. m.bindings) o
        ≡ matched (tree_of left.now) (tree_of term.now) []) }
{
    let mut found = Matches::new(alloc);
    found.reserve(left)?;
    if found.match_onto(left, term) {
        Ok(Some(found))
    } else {
        Ok(None)
    }
}

/// What a rule makes of a term, by its sides.
pub fn put_for(
    alloc: Global,
    left: &Term,
    right: &Term,
    term: &Term,
) -> Result<Exchanged, AllocError>
    ensures { IfOk result (IsExchanged (tree_of left.now) (tree_of right.now) (tree_of term.now)) }
{
    let Some(found) = match_of(alloc, left, term)? else {
        return Ok(Exchanged::Differs);
    };
    if left_behind_put(&found, right, MOST_BUILT_SYMBOLS).is_none() {
        return Ok(Exchanged::TooLarge);
    }
    let made = found.apply(alloc, right)?;
    Ok(Exchanged::By(made))
}
