// Subterms by their paths.
ghost use Rattle.std.specs.Prelude.{◌≡◌, ◌-◌, ◌<◌, ◌≤◌, ◌+◌, ◌++◌, ◌∷◌, [], IfOk, OnOk, length};
ghost use Rattle.std.specs.Option.{option_map};
ghost use Rattle.fol_core.specs.TermView.{tree_of, tree_list};
ghost use Rattle.fol_core.specs.Tree.{trees_of};
ghost use Rattle.substitutions.specs.Paths.{argument, part_at, subterm_at, with_argument, with_part, replaced};

use fol_core::{Term, Terms};
use std::alloc::{AllocError, Global};

// An argument by its number, counted from 1.
#[tactic(auto, using(crate::proofs::PathLemmas::argument_item, crate::proofs::PathLemmas::argument_past, crate::proofs::PathLemmas::argument_zero))]
fn argument(terms: &Terms, number: u64) -> Option<&Term>
    ensures { option_map (λ t. tree_of t.now) result ≡ argument (trees_of terms.now) number }
{
    let all = terms.as_slice();
    if number == 0 {
        return None;
    }
    if number > all.len() as u64 {
        return None;
    }
    Some(&all[(number - 1) as usize])
}

/// An argument of an application, by its number, counted from 1; none exactly where it isn't there.
pub fn part(term: &Term, number: u64) -> Option<&Term>
    ensures { option_map (λ t. tree_of t.now) result ≡ part_at (tree_of term.now) number }
{
    match term {
        Term::Var(_) => None,
        Term::Elem(_) => None,
        Term::App(_, terms) => argument(terms, number),
    }
}

/// The subterm at a path of argument numbers, counted from 1; none exactly where the path isn't there.
pub fn subterm_at<'a>(term: &'a Term, path: &[u64]) -> Option<&'a Term>
    ensures { option_map (λ t. tree_of t.now) result ≡ subterm_at (tree_of term.now) path.now }
{
    let mut here = term;
    for number in path {
        match part(here, *number) {
            Some(next) => here = next,
            None => return None,
        }
    }
    Some(here)
}

// Copies of terms, at the end.
fn push_copies(made: &mut Terms, alloc: Global, terms: &[Term]) -> Result<(), AllocError>
    ensures { OnOk result (made.new ≡ made.old ++ tree_list terms.now) }
{
    for term in terms {
        made.push(term.copy(alloc)?)?;
    }
    Ok(())
}

// Terms between others.
fn between(alloc: Global, before: &[Term], new: Term, after: &[Term]) -> Result<Terms, AllocError>
    ensures { IfOk result (λ made. made ≡ (tree_list before.now ++ tree_of new ∷ [])
        ++ tree_list after.now) }
{
    let mut made = Terms::new(alloc);
    push_copies(&mut made, alloc, before)?;
    made.push(new)?;
    push_copies(&mut made, alloc, after)?;
    Ok(made)
}

// The arguments with another one under a number.
#[tactic(auto, using(crate::proofs::PathLemmas::with_argument_made, crate::proofs::PathLemmas::with_argument_zero, crate::proofs::PathLemmas::with_argument_past))]
fn with_argument(alloc: Global, terms: &Terms, number: u64, new: Term) -> Result<Terms, AllocError>
    ensures { IfOk result (λ made. trees_of made
        ≡ with_argument (λ _. tree_of new) (trees_of terms.now) number) }
{
    let all = terms.as_slice();
    if number == 0 {
        return terms.copy(alloc);
    }
    if number > all.len() as u64 {
        return terms.copy(alloc);
    }
    let place = (number - 1) as usize;
    between(alloc, &all[..place], new, &all[place + 1..])
}

// The term with another one in place of an argument.
fn with_part(alloc: Global, term: &Term, number: u64, new: Term) -> Result<Term, AllocError>
    ensures { IfOk result (λ made. tree_of made
        ≡ with_part (λ _. tree_of new) (tree_of term.now) number) }
{
    match term {
        Term::Var(x) => Ok(Term::Var(*x)),
        Term::Elem(k) => Ok(Term::Elem(*k)),
        Term::App(head, terms) => Ok(Term::App(*head, with_argument(alloc, terms, number, new)?)),
    }
}

/// The term with another one at a path; none exactly where the path isn't there.
pub fn replace_at(
    alloc: Global,
    term: &Term,
    path: &[u64],
    new: &Term,
) -> Result<Option<Term>, AllocError>
    ensures { IfOk result (λ made. option_map tree_of made
        ≡ option_map (λ _. replaced (tree_of term.now) path.now (tree_of new.now))
        (subterm_at (tree_of term.now) path.now)) }
{
    let Some((number, rest)) = path.split_first() else {
        return Ok(Some(new.copy(alloc)?));
    };
    let Some(next) = part(term, *number) else {
        return Ok(None);
    };
    match replace_at(alloc, next, rest, new)? {
        Some(changed) => Ok(Some(with_part(alloc, term, *number, changed)?)),
        None => Ok(None),
    }
}
