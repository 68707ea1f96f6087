// Terms from their heads, from the last one to the first, with a stack: the first argument of an application is on top.
ghost use Rattle.std.specs.Prelude.{◌≡◌, ◌∷◌, IfOk, OnOk, drop, take};
ghost use Rattle.fol_core.specs.TermView.{tree_of, tree_list};
ghost use Rattle.packed_terms.specs.Building.{from_top, with_head, built, first_of};
ghost use Rattle.packed_terms.specs.Codes.{heads_of};

use crate::form::Form;
use crate::head::Head;
use fol_core::{Sym, Term, Terms};
use std::alloc::{AllocError, Global};

// So many terms are taken from the top, or all that there are.
fn taken(alloc: Global, stack: &mut Vec<Term>, count: usize) -> Result<Terms, AllocError>
    ensures taken { IfOk result (λ terms. terms ≡ take count (from_top stack.old.items)) }
    ensures left { OnOk result (from_top stack.new.items ≡ drop count (from_top stack.old.items)) }
{
    let mut terms = Terms::with_capacity(alloc, count)?;
    for _i in 0..count {
        match stack.pop() {
            None => return Ok(terms),
            Some(term) => terms.push(term)?,
        }
    }
    Ok(terms)
}

// A term that begins with a head, its arguments taken from the top.
fn under(alloc: Global, stack: &mut Vec<Term>, head: Head) -> Result<Term, AllocError>
    ensures { IfOk result (λ term. tree_of term ∷ from_top stack.new.items ≡ with_head head (from_top stack.old.items)) }
{
    match head {
        Head::Variable(x) => Ok(Term::Var(x)),
        Head::Element(k) => Ok(Term::Elem(k)),
        Head::Symbol(f, count) => Ok(Term::App(Sym(f), taken(alloc, stack, count)?)),
    }
}

// A head more before those of which the terms are made.
fn put_head(alloc: Global, stack: &mut Vec<Term>, head: Head) -> Result<(), AllocError>
    ensures { OnOk result (from_top stack.new.items ≡ with_head head (from_top stack.old.items)) }
{
    let term = under(alloc, stack, head)?;
    stack.push(term)?;
    Ok(())
}

// The terms of all heads.
fn built(alloc: Global, form: &Form) -> Result<Vec<Term>, AllocError>
    ensures { IfOk result (λ stack. from_top stack.items ≡ built (heads_of form.now)) }
{
    let mut stack = Vec::new(alloc);
    let mut left = form.len();
    while left > 0 {
        left -= 1;
        match form.head(left) {
            None => {}
            Some(head) => put_head(alloc, &mut stack, head)?,
        }
    }
    Ok(stack)
}

/// The first of them.
pub fn first_built(alloc: Global, form: &Form) -> Result<Term, AllocError>
    ensures { IfOk result (λ term. tree_of term ≡ first_of (built (heads_of form.now))) }
{
    let mut stack = built(alloc, form)?;
    match stack.pop() {
        None => Ok(Term::Var(0)),
        Some(term) => Ok(term),
    }
}
