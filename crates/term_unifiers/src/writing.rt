// Terms of several clauses under what is found, as trees: their variables are numbered by first occurrence as they come.
ghost use Rattle.std.specs.Prelude.{IfOk};
ghost use Rattle.fol_core.specs.Substitutions.{substitute};
ghost use Rattle.fol_core.specs.TermView.{tree_of};
ghost use Rattle.fol_core.specs.Tree.{var};
ghost use Rattle.substitutions.specs.Bindings.{by_bindings};
ghost use Rattle.term_unifiers.specs.Classes.{In, class_terms};
ghost use Rattle.term_unifiers.specs.Renamed.{own_among};
ghost use Rattle.term_unifiers.specs.Solutions.{IsFound, bindings_of, classes_in};
ghost use Rattle.term_unifiers.specs.Written.{IsWritten};

use crate::apart::number_apart;
use crate::arena::view;
use crate::found::Found;
use crate::instances::class_of;
use crate::node::View;
use crate::numbers::Numbers;
use fol_core::{Sym, Term, Terms};
use std::alloc::{AllocError, Global};

// A variable by its number.
fn numbered(numbers: &mut Numbers, x: u128) -> Result<Term, AllocError>
    ensures { IfOk result (λ term. IsWritten numbers.old numbers.new (var x) (tree_of term)) }
{
    let number = numbers.number(x)?;
    Ok(Term::Var(number))
}

// The term of a class.
fn write_class(
    alloc: Global,
    found: &Found,
    root: usize,
    numbers: &mut Numbers,
) -> Result<Term, AllocError>
    requires found { IsFound found.now }
    requires root { In root found.now.order.items }
    ensures { IfOk result (λ term. IsWritten numbers.old numbers.new
        (class_terms (classes_in found.now) var found.now.order.items root) (tree_of term)) }
{
    match view(&found.arena, found.work.schemas[root]) {
        View::Variable(x) => numbered(numbers, x),
        View::Element(k) => Ok(Term::Elem(k)),
        View::Application(f, arguments) => {
            let mut terms = Terms::with_capacity(alloc, arguments.len())?;
            for argument in arguments {
                let child = found.work.links[*argument];
                terms.push(write_class(alloc, found, child, numbers)?)?;
            }
            Ok(Term::App(Sym(f), terms))
        }
    }
}

// The term of a variable.
fn write_variable(
    alloc: Global,
    found: &Found,
    x: u128,
    numbers: &mut Numbers,
) -> Result<Term, AllocError>
    requires { IsFound found.now }
    ensures { IfOk result (λ term. IsWritten numbers.old numbers.new
        (by_bindings (bindings_of found.now) x) (tree_of term)) }
{
    match class_of(found, x) {
        Some(root) => write_class(alloc, found, root, numbers),
        None => numbered(numbers, x),
    }
}

/// A term of one of so many clauses.
pub fn write_among(
    alloc: Global,
    found: &Found,
    term: &Term,
    many: u64,
    parent: u64,
    numbers: &mut Numbers,
) -> Result<Term, AllocError>
    requires { IsFound found.now }
    ensures { IfOk result (λ made. IsWritten numbers.old numbers.new (substitute
        (own_among many (by_bindings (bindings_of found.now)) parent) (tree_of term.now))
        (tree_of made)) }
{
    match term {
        Term::Var(x) => write_variable(alloc, found, number_apart(*x, many, parent), numbers),
        Term::Elem(k) => Ok(Term::Elem(*k)),
        Term::App(f, terms) => {
            let mut made = Terms::with_capacity(alloc, terms.items.len())?;
            for term in &terms.items {
                made.push(write_among(alloc, found, term, many, parent, numbers)?)?;
            }
            Ok(Term::App(*f, made))
        }
    }
}
