// What a term becomes with what is bound to its variables, built node by node.
ghost use Rattle.std.specs.Prelude.{◌≡◌, IfOk, IfSome, OnOk};
ghost use Rattle.term_bank.specs.Bank.{IsAt, Grows};
ghost use Rattle.unify.specs.Bindings.{AreBindings, IsSpot};
ghost use Rattle.unify.specs.Instanced.{AreLoose, AreTheirs, ArgumentSpots, IsBuilding, IsLoose};
ghost use Rattle.unify.specs.Reaches.{becomes};
ghost use Rattle.unify.specs.Spots.{spot, In};

use crate::looking::same;
use crate::spot::{Bound, Image, Spot};
use crate::walking::walk;
use fol_core::Term;
use std::alloc::{AllocError, Global};
use term_bank::{Bank, Node, TermId};

// What a node was built as, if it was.
fn image_of(images: &Vec<Image>, node: Spot) -> Option<TermId>
    ensures { IfSome result (λ id. In (record { spot = node; term = id }) images.now.items) }
{
    for image in images {
        if same(image.spot, node) {
            return Some(image.term);
        }
    }
    None
}

// What an argument was built as; if it wasn't, it is to be built.
fn image_or_wait(
    bank: &Bank,
    bound: &Vec<Bound>,
    images: &Vec<Image>,
    pending: &mut Vec<Spot>,
    argument: Spot,
) -> Result<Option<TermId>, AllocError>
    requires building { IsBuilding bank.now bound.now.items images.now.items pending.old.items }
    requires argument { IsSpot bank.now argument }
    ensures loose { AreLoose bank.now bound.now.items pending.new.items }
    ensures image { IfOk result (λ o. IfSome o
        (λ id. IsAt bank.now id.0 (becomes bank.now bound.now.items argument))) }
{
    let next = walk(bank, bound, argument);
    match image_of(images, next) {
        Some(id) => Ok(Some(id)),
        None => {
            pending.push(next)?;
            Ok(None)
        }
    }
}

// What arguments were built as, if all were; the others are to be built.
fn gather(
    alloc: Global,
    bank: &Bank,
    bound: &Vec<Bound>,
    images: &Vec<Image>,
    pending: &mut Vec<Spot>,
    arguments: &[TermId],
    context: u64,
) -> Result<Option<Vec<TermId>>, AllocError>
    requires building { IsBuilding bank.now bound.now.items images.now.items pending.old.items }
    requires arguments { ArgumentSpots bank.now context arguments.now }
    ensures loose { AreLoose bank.now bound.now.items pending.new.items }
    ensures images { IfOk result (λ o. IfSome o
        (λ ids. AreTheirs bank.now bound.now.items context arguments.now ids.items)) }
{
    let mut ids = Vec::new(alloc);
    let mut lacks = false;
    for term in arguments {
        let argument = Spot {
            term: *term,
            context,
        };
        match image_or_wait(bank, bound, images, pending, argument)? {
            Some(id) => ids.push(id)?,
            None => lacks = true,
        }
    }
    if lacks { Ok(None) } else { Ok(Some(ids)) }
}

// Builds a node, or has its arguments built first.
fn build(
    alloc: Global,
    bank: &mut Bank,
    bound: &Vec<Bound>,
    images: &mut Vec<Image>,
    pending: &mut Vec<Spot>,
    node: Spot,
) -> Result<(), AllocError>
    requires building { IsBuilding bank.old bound.now.items images.old.items pending.old.items }
    requires node { IsLoose bank.old bound.now.items node }
    ensures grows { Grows bank.old bank.new }
    ensures building { OnOk result
        (IsBuilding bank.new bound.now.items images.new.items pending.new.items) }
{
    let term = match bank.node(node.term) {
        Node::Var(x) => bank.put(&Term::Var(x + node.context))?,
        Node::Elem(_) => node.term,
        Node::App(f, arguments) => {
            match gather(alloc, bank, bound, images, pending, arguments, node.context)? {
                None => return Ok(()),
                Some(ids) => bank.apply(f, ids.as_slice())?,
            }
        }
    };
    images.push(Image { spot: node, term })?;
    Ok(())
}

/// The number of what a term becomes.
pub fn built(
    alloc: Global,
    bank: &mut Bank,
    bound: &Vec<Bound>,
    root: Spot,
) -> Result<TermId, AllocError>
    requires bindings { AreBindings bank.old bound.now.items }
    requires spot { IsSpot bank.old root }
    ensures grows { Grows bank.old bank.new }
    ensures term { IfOk result
        (λ id. IsAt bank.new id.0 (becomes bank.old bound.now.items root)) }
{
    let first = walk(bank, bound, root);
    let mut images = Vec::new(alloc);
    let mut pending = Vec::new(alloc);
    pending.push(first)?;
    'nodes: for _ in 0..u64::MAX {
        if let Some(id) = image_of(&images, first) {
            return Ok(id);
        }
        let Some(next) = pending.pop() else {
            return Err(AllocError);
        };
        if image_of(&images, next).is_none() {
            pending.push(next)?;
            build(alloc, bank, bound, &mut images, &mut pending, next)?;
        }
    }
    Err(AllocError)
}
