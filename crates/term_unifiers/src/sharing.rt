// Terms of several clauses under what is found, in a bank: the term of each class stands there once, however often it occurs.
// Variables have numbers in the order in which they come.
ghost use Rattle.std.specs.Prelude.{ℕ, ◌≡◌, IfOk, length, map};
ghost use Rattle.fol_core.specs.Substitutions.{substitute};
ghost use Rattle.fol_core.specs.TermView.{tree_of};
ghost use Rattle.fol_core.specs.Tree.{var};
ghost use Rattle.substitutions.specs.Bindings.{by_bindings};
ghost use Rattle.term_unifiers.specs.Arenas.{shapes_of};
ghost use Rattle.term_unifiers.specs.Classes.{In, children, class_terms};
ghost use Rattle.term_unifiers.specs.Renamed.{own_among};
ghost use Rattle.term_unifiers.specs.Shared.{AllHeld, ArePut, IsHeld, IsPut, IsShared, id_at, numbers_of, of_parent};
ghost use Rattle.term_unifiers.specs.Solutions.{IsFound, bindings_of, classes_in};

use crate::apart::number_apart;
use crate::arena::view;
use crate::found::Found;
use crate::instances::class_of;
use crate::node::View;
use crate::numbers::Numbers;
use fol_core::{Sym, Term};
use std::alloc::{AllocError, Global};
use term_bank::{Bank, TermId};

/// A term of a clause, by the clause's place among several.
#[derive(Clone, Copy)]
pub struct OfParent<'a> {
    pub parent: u64,
    pub term: &'a Term,
}

/// A bank, and the numbers there of terms that were put in.
#[derive(Drop)]
pub struct Shared {
    pub bank: Bank,
    pub terms: Vec<TermId>,
    pub others: Vec<TermId>,
}

// A variable by its number.
fn put_variable(bank: &mut Bank, numbers: &mut Numbers, x: u128) -> Result<TermId, AllocError>
    ensures { IfOk result (λ id. IsPut bank.old bank.new numbers.old numbers.new (var x) id.0) }
{
    let number = numbers.number(x)?;
    bank.put(&Term::Var(number))
}

// The term of a class whose arguments' classes are there.
fn put_class(
    alloc: Global,
    found: &Found,
    ids: &[TermId],
    bank: &mut Bank,
    numbers: &mut Numbers,
    root: usize,
) -> Result<TermId, AllocError>
    requires found { IsFound found.now }
    requires root { In root found.now.order.items }
    requires held { (r : ℕ) → In r (children (classes_in found.now) root)
        → IsHeld bank.old numbers.old (class_terms (classes_in found.now) var found.now.order.items r)
        (id_at ids.now r) }
    requires len { length ids.now ≡ length (shapes_of found.now.arena) }
    ensures { IfOk result (λ id. IsPut bank.old bank.new numbers.old numbers.new
        (class_terms (classes_in found.now) var found.now.order.items root) id.0) }
{
    match view(&found.arena, found.work.schemas[root]) {
        View::Variable(x) => put_variable(bank, numbers, x),
        View::Element(k) => bank.put(&Term::Elem(k)),
        View::Application(f, arguments) => {
            let mut terms = Vec::with_capacity(alloc, arguments.len())?;
            for argument in arguments {
                terms.push(ids[found.work.links[*argument]])?;
            }
            bank.apply(Sym(f), terms.as_slice())
        }
    }
}

// The terms of all classes, by node.
fn put_classes(
    alloc: Global,
    found: &Found,
    bank: &mut Bank,
    numbers: &mut Numbers,
) -> Result<Vec<TermId>, AllocError>
    requires { IsFound found.now }
    ensures { IfOk result (λ ids. AllHeld
        (class_terms (classes_in found.now) var found.now.order.items) found.now.order.items
        (length (shapes_of found.now.arena)) bank.new numbers.new ids.items) }
{
    let mut ids = vec![in alloc; TermId(0); found.arena.nodes.len()]?;
    for root in &found.order {
        let id = put_class(alloc, found, ids.as_slice(), bank, numbers, *root)?;
        ids[*root] = id;
    }
    Ok(ids)
}

// The term of a variable.
fn put_bound(
    found: &Found,
    ids: &[TermId],
    bank: &mut Bank,
    numbers: &mut Numbers,
    x: u128,
) -> Result<TermId, AllocError>
    requires found { IsFound found.now }
    requires held { AllHeld (class_terms (classes_in found.now) var found.now.order.items)
        found.now.order.items (length (shapes_of found.now.arena)) bank.old numbers.old ids.now }
    ensures { IfOk result (λ id. IsPut bank.old bank.new numbers.old numbers.new
        (by_bindings (bindings_of found.now) x) id.0) }
{
    match class_of(found, x) {
        Some(root) => Ok(ids[root]),
        None => put_variable(bank, numbers, x),
    }
}

// A term of one of so many clauses.
fn put_among(
    alloc: Global,
    found: &Found,
    ids: &[TermId],
    bank: &mut Bank,
    numbers: &mut Numbers,
    term: &Term,
    many: u64,
    parent: u64,
) -> Result<TermId, AllocError>
    requires found { IsFound found.now }
    requires held { AllHeld (class_terms (classes_in found.now) var found.now.order.items)
        found.now.order.items (length (shapes_of found.now.arena)) bank.old numbers.old ids.now }
    ensures { IfOk result (λ id. IsPut bank.old bank.new numbers.old numbers.new (substitute
        (own_among many (by_bindings (bindings_of found.now)) parent) (tree_of term.now)) id.0) }
{
    match term {
        Term::Var(x) => { put_bound(found, ids, bank, numbers, number_apart(*x, many, parent)) }
        Term::Elem(k) => bank.put(&Term::Elem(*k)),
        Term::App(f, terms) => {
            let mut made = Vec::with_capacity(alloc, terms.items.len())?;
            for term in &terms.items {
                made.push(put_among(alloc, found, ids, bank, numbers, term, many, parent)?)?;
            }
            bank.apply(*f, made.as_slice())
        }
    }
}

// Terms of these clauses.
fn put_all_among(
    alloc: Global,
    found: &Found,
    ids: &[TermId],
    bank: &mut Bank,
    numbers: &mut Numbers,
    terms: &[OfParent],
    many: u64,
) -> Result<Vec<TermId>, AllocError>
    requires found { IsFound found.now }
    requires held { AllHeld (class_terms (classes_in found.now) var found.now.order.items)
        found.now.order.items (length (shapes_of found.now.arena)) bank.old numbers.old ids.now }
    ensures { IfOk result (λ made. ArePut bank.old bank.new numbers.old numbers.new
        (map (of_parent many (bindings_of found.now)) terms.now) (numbers_of made.items)) }
{
    let mut made = Vec::with_capacity(alloc, terms.len())?;
    for one in terms {
        let id = put_among(alloc, found, ids, bank, numbers, one.term, many, one.parent)?;
        made.push(id)?;
    }
    Ok(made)
}

/// A bank with terms of so many clauses, and the numbers of these there.
pub fn share_among(
    alloc: Global,
    found: &Found,
    many: u64,
    terms: &[OfParent],
    others: &[OfParent],
) -> Result<Shared, AllocError>
    requires { IsFound found.now }
    ensures { IfOk result (IsShared many (bindings_of found.now) terms.now others.now) }
{
    let mut bank = Bank::new(alloc);
    let mut numbers = Numbers::new(alloc);
    let ids = put_classes(alloc, found, &mut bank, &mut numbers)?;
    let terms = put_all_among(
        alloc,
        found,
        ids.as_slice(),
        &mut bank,
        &mut numbers,
        terms,
        many,
    )?;
    let others = put_all_among(
        alloc,
        found,
        ids.as_slice(),
        &mut bank,
        &mut numbers,
        others,
        many,
    )?;
    Ok(Shared {
        bank,
        terms,
        others,
    })
}
